// The words of a pool of cells: where everything stands, reads and writes of cells and registers, and fresh words.
//
// Functions that take a cell's number, or the number of cells, ask that the words hold so many.
#![tactic(auto)]

ghost use Rattle.std.specs.Prelude.{◌≡◌, ◌<◌, ◌≤◌, length, replicate, leb, MatchOption, ◌≢◌};
ghost use Rattle.pool.specs.Layout.{register_count, pool_length, cell_count_of_length, cell, set_cell, put_cell, is_point_at, link_of, register, set_register, head, set_head};
ghost use Rattle.pool.specs.States.{is_point, is_used, is_free};
ghost use Rattle.pool.specs.Retain.{retain, blank_words};
ghost use Rattle.pool.specs.Steps.{FirstUsed};
ghost use Rattle.answers.specs.Outcome.{answer_outcome};
ghost use Rattle.pool.specs.Fresh.{fresh_of};

use answers::{Answer, Refusal};

// The kinds of a used cell: a pair of links, or a point.
#[derive(Clone, Copy, Debug, PartialEq, Eq)]
pub enum Kind {
    Pair,
    Point,
}

// The pool: its limits, and where everything stands in its words.
#[derive(Clone, Copy)]
pub struct Pool {}

impl Pool {
    // The most cells of a pool.
    pub const CELLS: u32 = 4000;

    pub const REGISTERS: u32 = 16;

    // Words: the number of cells, the head of the free list, the registers, then the cells, and behind them words that no function changes.
    pub const COUNT: usize = 0;

    pub const HEAD: usize = 1;

    pub const FIRST_REGISTER: usize = 2;

    pub const FIRST_CELL: usize = 18;

    // The words of a cell.
    pub const CELL_WORDS: usize = 4;

    pub const STATE: usize = 0;

    pub const LEFT: usize = 1;

    pub const RIGHT: usize = 2;

    pub const VALUE: usize = 3;

    // The states. A used cell is a pair of links, or a point, whose left and right words are plain numbers, x and y. Marked cells stand only inside a
    // collection, and so do 1 and 2, of a pair that was visited once or twice.
    pub const PAIR: u32 = 0;

    pub const MARKED_PAIR: u32 = 3;

    pub const FREE: u32 = 4;

    pub const POINT: u32 = 5;

    pub const MARKED_POINT: u32 = 6;

    // Makes the words a pool of as many cells as they hold, all of them free and all registers nil. Gives the number of cells, and of the words left over
    // behind them, which stay.
    pub fn fresh(words: &mut [u32]) -> Result<Answer, Refusal>
        ensures { (answer_outcome result, words.new) ≡ fresh_of words.old }
    {
        let Some(n) = cell_count_of_length(words.len()) else {
            return Err(Refusal::Size);
        };
        let leftover = ((words.len() - Pool::FIRST_CELL) % Pool::CELL_WORDS) as u32;
        blank(words, n);
        free_above(words, n, 0);
        Ok(Answer::Pair(n, leftover))
    }
}

// The four words of a cell: the left and right ones are links of a pair and numbers of a point.
#[derive(Clone, Copy)]
pub struct Cell {
    pub state: u32,
    pub left: u32,
    pub right: u32,
    pub value: u32,
}

// The number of cells of a pool of that many words; none where no pool has that length.
pub fn cell_count_of_length(len: usize) -> Option<u32>
    ensures { MatchOption result (cell_count_of_length register_count len ≡ 0) (λ n. (n ≡ cell_count_of_length register_count len) × (n ≢ 0)) }
{
    if len < Pool::FIRST_CELL + Pool::CELL_WORDS {
        return None;
    }
    let cells = (len - Pool::FIRST_CELL) / Pool::CELL_WORDS;
    if (Pool::CELLS as usize) < cells {
        return None;
    }
    Some(cells as u32)
}

#[tactic(auto, unfolding(crate::specs::Layout::cell))]
pub fn read_cell(words: &[u32], i: u32, field: usize) -> u32
    requires { (0 < i) × (field < 4) × (pool_length register_count i ≤ length words.now) }
    ensures { result ≡ cell register_count words.now i field }
{
    words[Pool::FIRST_CELL + Pool::CELL_WORDS * (i as usize - 1) + field]
}

#[tactic(auto, unfolding(crate::specs::Layout::set_cell))]
pub fn write_cell(words: &mut [u32], i: u32, field: usize, v: u32)
    requires { (0 < i) × (field < 4) × (pool_length register_count i ≤ length words.old) }
    ensures { words.new ≡ set_cell register_count words.old i field v }
{
    words[Pool::FIRST_CELL + Pool::CELL_WORDS * (i as usize - 1) + field] = v;
}

#[tactic(auto, unfolding(crate::specs::Layout::register))]
pub fn read_register(words: &[u32], k: u32) -> u32
    requires { (k < register_count) × (pool_length register_count 0 ≤ length words.now) }
    ensures { result ≡ register words.now k }
{
    words[Pool::FIRST_REGISTER + k as usize]
}

#[tactic(auto, unfolding(crate::specs::Layout::set_register))]
pub fn write_register(words: &mut [u32], k: u32, v: u32)
    requires { (k < register_count) × (pool_length register_count 0 ≤ length words.old) }
    ensures { words.new ≡ set_register words.old k v }
{
    words[Pool::FIRST_REGISTER + k as usize] = v;
}

#[tactic(auto, unfolding(crate::specs::Layout::head))]
pub fn read_head(words: &[u32]) -> u32
    requires { pool_length register_count 0 ≤ length words.now }
    ensures { result ≡ head words.now }
{
    words[Pool::HEAD]
}

#[tactic(auto, unfolding(crate::specs::Layout::set_head))]
pub fn write_head(words: &mut [u32], v: u32)
    requires { pool_length register_count 0 ≤ length words.old }
    ensures { words.new ≡ set_head words.old v }
{
    words[Pool::HEAD] = v;
}

// The tests of a cell's state: is it a point, marked or not?
#[tactic(auto, unfolding(crate::specs::States::is_point))]
pub fn is_point(state: u32) -> bool
    ensures { result ≡ is_point state }
{
    matches!(state, Pool::POINT | Pool::MARKED_POINT)
}

// Is it used, a pair or a point?
#[tactic(auto, unfolding(crate::specs::States::is_used))]
pub fn is_used(state: u32) -> bool
    ensures { result ≡ is_used state }
{
    matches!(state, Pool::PAIR | Pool::POINT)
}

pub fn is_free(state: u32) -> bool
    ensures { result ≡ is_free state }
{
    state == Pool::FREE
}

// Is the cell a point, marked or not?
pub fn is_point_at(words: &[u32], i: u32) -> bool
    requires { (0 < i) × (pool_length register_count i ≤ length words.now) }
    ensures { result ≡ is_point_at register_count words.now i }
{
    is_point(read_cell(words, i, Pool::STATE))
}

// A link of a cell: its left or right field, and nil of a point.
#[tactic(auto, unfolding(crate::specs::Layout::link_of))]
pub fn link_of(words: &[u32], i: u32, field: usize) -> u32
    requires { (0 < i) × (field < 4) × (pool_length register_count i ≤ length words.now) }
    ensures { result ≡ link_of register_count words.now i field }
{
    if is_point_at(words, i) {
        0
    } else {
        read_cell(words, i, field)
    }
}

// Writes the four words of a cell.
pub fn put_cell(words: &mut [u32], i: u32, cell: Cell)
    requires { (0 < i) × (pool_length register_count i ≤ length words.old) }
    ensures { words.new ≡ put_cell register_count words.old i cell.state cell.left cell.right cell.value }
{
    write_cell(words, i, Pool::STATE, cell.state);
    write_cell(words, i, Pool::LEFT, cell.left);
    write_cell(words, i, Pool::RIGHT, cell.right);
    write_cell(words, i, Pool::VALUE, cell.value);
}

// Puts the cells above the first k of n onto the free list, in ascending order. The first k are used, and stay.
pub fn free_above(words: &mut [u32], n: u32, k: u32)
    requires { (k ≤ n) × (pool_length register_count n ≤ length words.old) × FirstUsed register_count k words.old }
    ensures { words.new ≡ retain register_count n (λ j. leb j k) words.old }
{
    let mut next = 0;
    for i in (k..n).rev() {
        let cell = Cell {
            state: Pool::FREE,
            left: next,
            right: 0,
            value: 0,
        };
        put_cell(words, i + 1, cell);
        next = i + 1;
    }
    write_head(words, next);
}

// Writes n to word 0 and 0 to every other word of a pool of n cells.
pub fn blank(words: &mut [u32], n: u32)
    requires { pool_length register_count n ≤ length words.old }
    ensures { words.new ≡ blank_words register_count n words.old }
{
    let end = Pool::FIRST_CELL + Pool::CELL_WORDS * (n as usize);
    clear(&mut words[..end]);
    words[Pool::COUNT] = n;
}

// Sets every word to 0.
pub fn clear(words: &mut [u32])
    ensures { words.new ≡ replicate (length words.old) 0 }
{
    words.fill(0);
}
