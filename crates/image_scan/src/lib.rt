// The scan of a whole image, and the check of an image.
#![tactic(auto)]

ghost use Rattle.std.specs.Prelude.{◌≡◌, ◌+◌, ◌<◌, ◌≤◌, length, IfSome};
ghost use Rattle.pool.specs.Layout.{register_count};
ghost use Rattle.image.specs.Image.{read_number, read_link, read_cell, read_each, read_image};
ghost use Rattle.image_scan.specs.Check.{check_of};
ghost use Rattle.image_scan.specs.Steps.{place_of, end_of, pair_end, scan_of};

use answers::Refusal;
use image_reader::KindRead;
use pool::Pool;

// An image at the start of some bytes: the number of its cells, and the place behind it.
#[derive(Clone, Copy, PartialEq, Eq, Debug)]
pub struct Scanned {
    pub cells: u32,
    pub end: usize,
}

// Reads a cell of an image of k cells, kind, left, right, value, without a write. Gives the place behind it. Inlined, as the other parts of a scan, so that
// what it returns needs no memory.
#[inline(always)]
fn scan_cell(bytes: &[u8], at: usize, k: u32) -> Result<usize, Refusal>
    ensures { result ≡ place_of (read_cell k bytes.now at) }
{
    let KindRead { kind, next } = image_reader::read_kind(bytes, at)?;
    let number = image::kind_number(kind);
    let left = image_reader::read_word(bytes, next, k, number)?;
    let right = image_reader::read_word(bytes, left.next, k, number)?;
    let value = image_reader::read_number(bytes, right.next)?;
    Ok(value.next)
}

// Most cells of most images are pairs, far from the end of the bytes. Of such a pair the next functions ask no more than they must: whether bytes are there
// once for all of its numbers, and of a link, whose bound k is below 2^14, two bytes at most.

// Links below this bound take two bytes at most.
const SHORT_LINKS: u32 = 16384;

// The most bytes of a pair with such links: one of its kind, two of each link, five of its value.
const PAIR_BYTES: usize = 10;

// The place behind a link of an image of k cells, if it is not refused.
fn link_end(bytes: &[u8], at: usize, k: u32) -> Option<usize>
    requires { (k < 16384) × (at + 2 ≤ length bytes.now) }
    ensures { (result ≡ end_of (read_link k bytes.now at)) × IfSome result (λ end. end ≤ at + 2) }
{
    let first = bytes[at] as u32;
    if first < 128 {
        if k < first {
            return None;
        }
        return Some(at + 1);
    }
    let second = bytes[at + 1] as u32;
    if second == 0 {
        return None;
    }
    if k < first - 128 + 128 * second {
        return None;
    }
    Some(at + 2)
}

// The place behind any number, if it is not refused.
fn number_end(bytes: &[u8], at: usize) -> Option<usize>
    requires { at + 5 ≤ length bytes.now }
    ensures { result ≡ end_of (read_number bytes.now at) }
{
    if bytes[at] < 128 {
        return Some(at + 1);
    }
    for i in at + 1..at + 4 {
        let group = bytes[i];
        if group < 128 {
            if group == 0 {
                return None;
            }
            return Some(i + 1);
        }
    }
    let fifth = bytes[at + 4];
    if fifth == 0 {
        return None;
    }
    if 16 <= fifth {
        return None;
    }
    Some(at + 5)
}

// The place behind a pair of an image of k cells, if it is one and not refused.
fn pair_end(bytes: &[u8], at: usize, k: u32) -> Option<usize>
    requires { (k < 16384) × (at + 10 ≤ length bytes.now) }
    ensures { result ≡ pair_end k bytes.now at }
{
    if bytes[at] != 0 {
        return None;
    }
    let behind_left = link_end(bytes, at + 1, k)?;
    let behind_right = link_end(bytes, behind_left, k)?;
    number_end(bytes, behind_right)
}

// Cells of an image that are still to be read: how many, and where they start.
#[derive(Clone, Copy)]
pub struct Rest {
    pub left: u32,
    pub at: usize,
}

// Reads the pairs that some cells of an image of k cells begin with. What is left is read with the same answer as all of them; how much that is, which only
// time depends on, is not promised.
#[inline(always)]
fn skip_pairs(bytes: &[u8], start: usize, k: u32, count: u32) -> Rest
    ensures { (place_of (read_each (read_cell k bytes.now) result.left result.at) ≡ place_of (read_each (read_cell k bytes.now) count start)) × (result.left ≤ count) }
{
    let mut at = start;
    let mut left = count;
    if SHORT_LINKS <= k {
        return Rest { left, at };
    }
    if bytes.len() < PAIR_BYTES {
        return Rest { left, at };
    }
    let last = bytes.len() - PAIR_BYTES;
    // Not a `for`: how many are left when the pairs end is what is given back.
    while 0 < left {
        if last < at {
            return Rest { left, at };
        }
        let Some(behind) = pair_end(bytes, at, k) else {
            return Rest { left, at };
        };
        at = behind;
        left -= 1;
    }
    Rest { left, at }
}

// Reads the registers of an image of k cells, without a write. Gives the place behind them.
fn scan_registers(bytes: &[u8], start: usize, k: u32) -> Result<usize, Refusal>
    ensures { result ≡ place_of (read_each (read_link k bytes.now) register_count start) }
{
    let mut at = start;
    for _ in 0..Pool::REGISTERS {
        at = image_reader::read_link(bytes, at, k)?.next;
    }
    Ok(at)
}

// Reads the cells of an image of k cells, without a write. Gives the place behind them.
#[inline(always)]
fn scan_cells(bytes: &[u8], start: usize, k: u32) -> Result<usize, Refusal>
    ensures { result ≡ place_of (read_each (read_cell k bytes.now) k start) }
{
    let mut at = start;
    let mut left = k;
    // Not a `for`: a turn goes over as many cells as there are pairs, and one more.
    while 0 < left {
        let rest = skip_pairs(bytes, at, k, left);
        at = rest.at;
        left = rest.left;
        if left == 0 {
            return Ok(at);
        }
        at = scan_cell(bytes, at, k)?;
        left -= 1;
    }
    Ok(at)
}

// The image at the start of the bytes, for a pool of n cells.
#[inline(always)]
pub fn scan_image(bytes: &[u8], n: u32) -> Result<Scanned, Refusal>
    ensures { result ≡ scan_of (read_image register_count n bytes.now) }
{
    let count = image_reader::read_count(bytes, n)?;
    let cells = count.value;
    let at = scan_registers(bytes, count.next, cells)?;
    let end = scan_cells(bytes, at, cells)?;
    Ok(Scanned { cells, end })
}

// Would these bytes be loaded into a pool of n cells? If not, why they are refused.
pub fn check_image(bytes: &[u8], n: u32) -> Result<(), Refusal>
    ensures { result ≡ check_of bytes.now n }
{
    if n < 1 {
        return Err(Refusal::Size);
    }
    if Pool::CELLS < n {
        return Err(Refusal::Size);
    }
    scan_image(bytes, n)?;
    Ok(())
}
