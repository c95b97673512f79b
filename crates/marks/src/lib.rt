// The marks of cells, and the sweep, which rebuilds the free list of those that are not marked.
#![tactic(auto)]

ghost use Rattle.std.specs.Prelude.{◌≡◌, true, ◌<◌, ◌≤◌, length};
ghost use Rattle.pool.specs.Layout.{register_count, pool_length, state, mark_cell, unmark_cell};
ghost use Rattle.pool.specs.States.{is_used, is_marked};
ghost use Rattle.pool.specs.Retain.{sweep_of};

use pool::{Cell, Pool};

// Is it the state of a marked cell?
#[tactic(auto, unfolding(pool::specs::States::is_marked))]
pub fn is_marked(state: u32) -> bool
    ensures { result ≡ is_marked state }
{
    matches!(state, Pool::MARKED_PAIR | Pool::MARKED_POINT)
}

// The bits in which the state of a marked cell differs from that of a used one of its kind: 3 from 0, and 6 from 5.
const MARK: u32 = 3;

// Marks a used cell, or makes a marked cell used again.
// (Two functions with one body, since each promises another state of another one: a third that both call would be as long as what they share.)
pub fn mark_cell(words: &mut [u32], i: u32)
    requires { (0 < i) × (pool_length register_count i ≤ length words.old) × (is_used (state register_count words.old i) ≡ true) }
    ensures { words.new ≡ mark_cell register_count words.old i }
{
    let used = pool::read_cell(words, i, Pool::STATE);
    pool::write_cell(words, i, Pool::STATE, used ^ MARK);
}

pub fn unmark_cell(words: &mut [u32], i: u32)
    requires { (0 < i) × (pool_length register_count i ≤ length words.old) × (is_marked (state register_count words.old i) ≡ true) }
    ensures { words.new ≡ unmark_cell register_count words.old i }
{
    let marked = pool::read_cell(words, i, Pool::STATE);
    pool::write_cell(words, i, Pool::STATE, marked ^ MARK);
}

// Marks two used cells. Both states are read before one is written, so that they need not be read again after they were tested.
pub fn mark_both(words: &mut [u32], i: u32, j: u32)
    requires cells { (0 < i) × (0 < j) × (i ≡ j → ⊥) × (pool_length register_count i ≤ length words.old) × (pool_length register_count j ≤ length words.old) }
    requires used { (is_used (state register_count words.old i) ≡ true) × (is_used (state register_count words.old j) ≡ true) }
    ensures { words.new ≡ mark_cell register_count (mark_cell register_count words.old i) j }
{
    let first = pool::read_cell(words, i, Pool::STATE);
    let second = pool::read_cell(words, j, Pool::STATE);
    pool::write_cell(words, i, Pool::STATE, first ^ MARK);
    pool::write_cell(words, j, Pool::STATE, second ^ MARK);
}

// Makes every marked cell used and puts all others onto the free list, in ascending order. Gives the number of marked cells. A point is asked for first, and
// the freed cells are counted: the compiler then makes the fewest instructions of a marked pair.
pub fn sweep(words: &mut [u32], n: u32) -> u32
    requires { pool_length register_count n ≤ length words.old }
    ensures { (result, words.new) ≡ sweep_of register_count n words.old }
{
    let mut next = 0;
    let mut freed = 0;
    for i in (0..n).rev() {
        match pool::read_cell(words, i + 1, Pool::STATE) {
            Pool::MARKED_POINT => pool::write_cell(words, i + 1, Pool::STATE, Pool::POINT),
            Pool::MARKED_PAIR => pool::write_cell(words, i + 1, Pool::STATE, Pool::PAIR),
            _ => {
                let free = Cell {
                    state: Pool::FREE,
                    left: next,
                    right: 0,
                    value: 0,
                };
                pool::put_cell(words, i + 1, free);
                next = i + 1;
                freed += 1;
            }
        }
    }
    pool::write_head(words, next);
    n - freed
}
