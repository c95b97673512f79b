// Load: an image becomes a pool.
#![tactic(auto)]

ghost use Rattle.std.specs.Prelude.{◌≡◌, ℕ, ◌<◌, ◌≤◌, length};
ghost use Rattle.pool.specs.Layout.{register_count, pool_length, set_register};
ghost use Rattle.image.specs.Image.{read_link, read_cell, read_each, read_image};
ghost use Rattle.load.specs.Load.{state_of_kind, put_fields, put_each, put_image, load_of, Handed};
ghost use Rattle.load.specs.Steps.{WhereRead};

use answers::Refusal;
use pool::{Cell, Kind, Pool};

// What load answers: why it is refused, if it is, and where the bytes behind the image start; refused, the length of the bytes.
#[derive(Clone, Copy)]
pub struct Loaded {
    pub verdict: Result<(), Refusal>,
    pub end: usize,
}

// What load hands back: the caller's bytes behind the image, and why it is refused, if it is; refused, the empty part at their end.
#[derive(Clone, Copy)]
pub struct Behind<'a> {
    pub rest: &'a [u8],
    pub verdict: Result<(), Refusal>,
}

// The bytes and a place of them are no reader here, and none in the scan: each function gives the place behind what it read, so that its contract says what
// one reading gives, of any place, as the definitions do.

// Writes the register of an image that stands at `at` to register j. Gives the place behind it. Bytes that were scanned, for whatever number k of cells, have
// no fault, so that no bound is asked again; nothing is said of others.
fn fill_register(words: &mut [u32], j: u32, bytes: &[u8], at: usize) -> usize
    requires { (j < register_count) × (pool_length register_count 0 ≤ length words.old) }
    ensures { (k : ℕ) → WhereRead (read_link k bytes.now at) (λ x end. (words.new ≡ set_register words.old j x) × (result ≡ end)) }
{
    let Ok(link) = image_reader::read_number(bytes, at) else {
        return at;
    };
    pool::write_register(words, j, link.value);
    link.next
}

// The state of a cell of that kind.
fn state_of_kind(kind: Kind) -> u32
    ensures { result ≡ state_of_kind kind }
{
    match kind {
        Kind::Pair => Pool::PAIR,
        Kind::Point => Pool::POINT,
    }
}

// Writes the cell of an image that stands at `at`, kind, left, right, value, to cell i. Gives the place behind it.
fn fill_cell(words: &mut [u32], i: u32, bytes: &[u8], at: usize) -> usize
    requires { (0 < i) × (pool_length register_count i ≤ length words.old) }
    ensures { (k : ℕ) → WhereRead (read_cell k bytes.now at) (λ c end. (words.new ≡ put_fields register_count words.old i c) × (result ≡ end)) }
{
    let Ok(kind) = image_reader::read_number(bytes, at) else {
        return at;
    };
    let Ok(left) = image_reader::read_number(bytes, kind.next) else {
        return at;
    };
    let Ok(right) = image_reader::read_number(bytes, left.next) else {
        return at;
    };
    let Ok(value) = image_reader::read_number(bytes, right.next) else {
        return at;
    };
    let cell = Cell {
        state: state_of_kind(image::kind_numbered(kind.value)),
        left: left.value,
        right: right.value,
        value: value.value,
    };
    pool::put_cell(words, i, cell);
    value.next
}

// Writes the registers of an image, which stand at `start`. Gives the place behind them.
fn fill_registers(words: &mut [u32], bytes: &[u8], start: usize) -> usize
    requires { pool_length register_count 0 ≤ length words.old }
    ensures { (k : ℕ) → WhereRead (read_each (read_link k bytes.now) register_count start) (λ links end. (words.new ≡ put_each set_register 0 links words.old) × (result ≡ end)) }
{
    let mut at = start;
    for j in 0..Pool::REGISTERS {
        at = fill_register(words, j, bytes, at);
    }
    at
}

// Writes the cells of an image of k cells, which stand at `start`.
fn fill_cells(words: &mut [u32], bytes: &[u8], start: usize, k: u32)
    requires { pool_length register_count k ≤ length words.old }
    ensures { WhereRead (read_each (read_cell k bytes.now) k start) (λ cells end. words.new ≡ put_each (put_fields register_count) 1 cells words.old) }
{
    let mut at = start;
    for i in 0..k {
        at = fill_cell(words, i + 1, bytes, at);
    }
}

// Writes the registers and the cells of the image at the start of the bytes, which were scanned, for a pool of n cells. Not inlined,
// so that its loops share no registers with the scan.
#[inline(never)]
fn fill(words: &mut [u32], bytes: &[u8], n: u32)
    requires { pool_length register_count n ≤ length words.old }
    ensures { WhereRead (read_image register_count n bytes.now) (λ i end. words.new ≡ put_image register_count i words.old) }
{
    let Ok(count) = image_reader::read_count(bytes, n) else {
        return;
    };
    let at = fill_registers(words, bytes, count.next);
    fill_cells(words, bytes, at, count.value);
}

// Loads the image at the start of the bytes, whole or not at all.
pub fn load_at(words: &mut [u32], bytes: &[u8]) -> Loaded
    ensures { (result, words.new) ≡ load_of words.old bytes.now }
{
    let Some(n) = pool::cell_count_of_length(words.len()) else {
        return Loaded {
            verdict: Err(Refusal::Size),
            end: bytes.len(),
        };
    };
    match image_scan::scan_image(bytes, n) {
        Err(why) => Loaded {
            verdict: Err(why),
            end: bytes.len(),
        },
        Ok(image) => {
            fill(words, bytes, n);
            words[Pool::COUNT] = n;
            pool::free_above(words, n, image.cells);
            Loaded {
                verdict: Ok(()),
                end: image.end,
            }
        },
    }
}

// Loads the image at the start of the bytes. Gives the bytes behind it; or the empty part at their end, and why it is refused.
pub fn load<'a>(words: &mut [u32], bytes: &'a [u8]) -> Behind<'a>
    ensures { Handed (load_of words.old bytes.now) bytes.now words.new result.verdict result.rest.now bytes.entry.ref_ptr result.rest.ref_ptr }
{
    let loaded = load_at(words, bytes);
    Behind {
        rest: &bytes[loaded.end..],
        verdict: loaded.verdict,
    }
}
