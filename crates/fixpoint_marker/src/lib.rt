// A marker without reversal and without a stack: passes over all cells until a pass marks nothing more. The marks stand in words of their own, mark i
// for cell i, and the pool is only read.
#![tactic(auto)]

ghost use Rattle.std.specs.Prelude.{◌≡◌, ℕ, ◌<◌, ◌≤◌, true, length};
ghost use Rattle.pool.specs.Layout.{register_count, pool_length};
ghost use Rattle.questions.specs.Validity.{well_formed};
ghost use Rattle.fixpoint_marker.specs.Marks.{Exact, OnlyReached, Rooted, Closed, LinkMarked, Grown};

use pool::Pool;

// Marks the cell that a link leads to. Gives how many cells that newly marks: 1 or 0.
fn mark_link(marks: &mut [u32], n: u32, x: u32) -> u32
    requires { n < length marks.old }
    ensures { LinkMarked n x marks.old marks.new result }
{
    if x != 0 && x <= n && marks[x as usize] == 0 {
        marks[x as usize] = 1;
        1
    } else {
        0
    }
}

// Marks what the links of a cell lead to, if the cell is marked. Gives how many cells that newly marks.
fn mark_links(words: &[u32], n: u32, marks: &mut [u32], i: u32) -> u32
    requires { (0 < i) × (i ≤ n) × (pool_length register_count n ≤ length words.now) × (n < length marks.old) }
    ensures { Grown n words.now marks.old marks.new result × Closed n words.now marks.new i }
{
    if marks[i as usize] == 0 {
        return 0;
    }
    let by_left = mark_link(marks, n, pool::link_of(words, i, Pool::LEFT));
    let by_right = mark_link(marks, n, pool::link_of(words, i, Pool::RIGHT));
    by_left + by_right
}

// One pass over all cells. Gives how many cells it newly marks.
fn pass(words: &[u32], n: u32, marks: &mut [u32]) -> u32
    requires { (pool_length register_count n ≤ length words.now) × (n < length marks.old) }
    ensures grown { Grown n words.now marks.old marks.new result }
    ensures closed { result ≡ 0 → (i : ℕ) → 0 < i → i ≤ n → Closed n words.now marks.new i }
{
    let mut found = 0;
    for i in (0..n).rev() {
        found += mark_links(words, n, marks, i + 1);
    }
    found
}

// Marks the cells that the registers hold.
fn mark_roots(words: &[u32], n: u32, marks: &mut [u32])
    requires { (pool_length register_count n ≤ length words.now) × (n < length marks.old) }
    ensures { (OnlyReached words.now marks.old → OnlyReached words.now marks.new) × Rooted n words.now marks.new }
{
    for k in 0..Pool::REGISTERS {
        mark_link(marks, n, pool::read_register(words, k));
    }
}

// Marks every cell that the registers reach, and no other: the fixed point of the passes. Whatever the marks were before is cleared.
pub fn mark(words: &[u32], n: u32, marks: &mut [u32])
    requires { (pool_length register_count n ≤ length words.now) × (n < length marks.old) }
    ensures { well_formed register_count n words.now ≡ true → Exact n words.now marks.new }
{
    pool::clear(marks);
    mark_roots(words, n, marks);
    while pass(words, n, marks) != 0 {}
}
