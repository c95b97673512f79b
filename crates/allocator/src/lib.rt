// The allocation of a cell: "new" and "point" behind their first two questions. Functions take the number of cells, n, of a pool, and valid registers.
#![tactic(auto)]

ghost use Rattle.std.specs.Prelude.{◌≡◌, ◌<◌, ◌≤◌, length};
ghost use Rattle.pool.specs.Layout.{cell_limit, register_count, pool_length, head};
ghost use Rattle.answers.specs.Outcome.{answer_outcome};
ghost use Rattle.allocator.specs.Allocation.{take, good_head, take_collected, take_free, allocate_in, new_in, point_in};

use answers::{Answer, Refusal};
use pool::{Cell, Pool};

// Takes the head cell: it becomes a used cell with these words, its left becomes the head, and r gets it, last of all.
fn take_head(words: &mut [u32], r: u32, cell: Cell)
    requires { (0 < head words.old) × (pool_length register_count (head words.old) ≤ length words.old) × (r < register_count) }
    ensures { words.new ≡ take words.old r cell.state cell.left cell.right cell.value }
{
    let i = pool::read_head(words);
    let next = pool::read_cell(words, i, Pool::LEFT);
    pool::put_cell(words, i, cell);
    pool::write_head(words, next);
    pool::write_register(words, r, i);
}

// Is the head a free cell whose left is nil or a cell?
fn good_head(words: &[u32], n: u32) -> bool
    requires { (pool_length register_count n ≤ length words.now) × (0 < head words.now) }
    ensures { result ≡ good_head n words.now }
{
    let i = pool::read_head(words);
    i <= n
        && pool::is_free(pool::read_cell(words, i, Pool::STATE))
        && pool::read_cell(words, i, Pool::LEFT) <= n
}

// Collects, and takes the head cell if one is free then. No register is written before, so what r holds is kept too.
fn take_collected(words: &mut [u32], n: u32, r: u32, cell: Cell) -> Result<Answer, Refusal>
    requires { (pool_length register_count n ≤ length words.old) × (0 < n) × (n ≤ cell_limit) × (r < register_count) × (head words.old ≡ 0) }
    ensures { (answer_outcome result, words.new) ≡ take_collected n words.old r cell.state cell.left cell.right cell.value }
{
    let collected = collector::collect_in(words, n)?;
    let free = pool::read_head(words);
    if free == 0 {
        return Err(Refusal::Full);
    }
    take_head(words, r, cell);
    let visits = answers::second(Ok(collected));
    Ok(Answer::Allocated { visits })
}

// Takes the head cell, if it may be taken.
fn take_free(words: &mut [u32], n: u32, r: u32, cell: Cell) -> Result<Answer, Refusal>
    requires { (pool_length register_count n ≤ length words.old) × (0 < head words.old) × (r < register_count) }
    ensures { (answer_outcome result, words.new) ≡ take_free n words.old r cell.state cell.left cell.right cell.value }
{
    if good_head(words, n) {
        take_head(words, r, cell);
        Ok(Answer::Allocated { visits: 0 })
    } else {
        Err(Refusal::Malformed)
    }
}

// r gets a new cell with these words. Inlined, so that what it returns needs no memory.
#[inline(always)]
fn allocate_in(words: &mut [u32], n: u32, r: u32, cell: Cell) -> Result<Answer, Refusal>
    requires { (pool_length register_count n ≤ length words.old) × (0 < n) × (n ≤ cell_limit) × (r < register_count) }
    ensures { (answer_outcome result, words.new) ≡ allocate_in n words.old r cell.state cell.left cell.right cell.value }
{
    if pool::read_head(words) == 0 {
        take_collected(words, n, r, cell)
    } else {
        take_free(words, n, r, cell)
    }
}

// r gets a new pair with left from a, right from b, and value v.
pub fn new_in(words: &mut [u32], n: u32, r: u32, a: u32, b: u32, v: u32) -> Result<Answer, Refusal>
    requires { (pool_length register_count n ≤ length words.old) × (0 < n) × (n ≤ cell_limit) × (r < register_count) × (a < register_count) × (b < register_count) }
    ensures { (answer_outcome result, words.new) ≡ new_in n words.old r a b v }
{
    let Ok(x) = questions::read_link(words, n, a) else {
        return Err(Refusal::Malformed);
    };
    let Ok(y) = questions::read_link(words, n, b) else {
        return Err(Refusal::Malformed);
    };
    let pair = Cell {
        state: Pool::PAIR,
        left: x,
        right: y,
        value: v,
    };
    allocate_in(words, n, r, pair)
}

// r gets a new point with value v and the coordinates x and y.
pub fn point_in(
    words: &mut [u32],
    n: u32,
    r: u32,
    v: u32,
    x: u32,
    y: u32,
) -> Result<Answer, Refusal>
    requires { (pool_length register_count n ≤ length words.old) × (0 < n) × (n ≤ cell_limit) × (r < register_count) }
    ensures { (answer_outcome result, words.new) ≡ point_in n words.old r v x y }
{
    let point = Cell {
        state: Pool::POINT,
        left: x,
        right: y,
        value: v,
    };
    allocate_in(words, n, r, point)
}
