// Where the stack marker goes on to from a cell, and the check of its entries where the lent words are full.
#![tactic(auto)]

ghost use Rattle.std.specs.Prelude.{◌≡◌, true, ◌<◌, ◌≤◌, length};
ghost use Rattle.pool.specs.Layout.{register_count, pool_length, cell, link_of};
ghost use Rattle.pool.specs.States.{is_marked};
ghost use Rattle.visit.specs.Visit.{unmarked};
ghost use Rattle.stack_check.specs.Steps.{UsedOrMarked, links_of, onward_in, entries, entry_of, without_nil, Walkable, walk_in, Checkable, check_in};

use pool::Pool;

// The bit that only the states of marked cells have.
const MARKED_BIT: u32 = 2;

// Where the marker goes on to from a cell: with two links unmarked it goes to the left one and pushes the right one.
#[derive(Clone, Copy)]
pub enum Onward {
    Nowhere,
    To(u32),
    Both(u32, u32),
}

// Is the link unmarked? Nil counts as marked. Of the states of a used cell and of a marked one, which are all that there are where a link leads, only those of
// a marked one, 3 and 6, have the second bit.
fn is_open(words: &[u32], x: u32) -> bool
    requires { (pool_length register_count x ≤ length words.now) × UsedOrMarked register_count words.now x }
    ensures { result ≡ unmarked register_count words.now x }
{
    x != 0 && pool::read_cell(words, x, Pool::STATE) & MARKED_BIT == 0
}

// Looks at both links of a marked cell of that state. Two equal unmarked links are one.
pub fn look(words: &[u32], n: u32, p: u32, state: u32) -> Onward
    requires marked_state { (state ≡ cell register_count words.now p 0) × (is_marked state ≡ true) }
    requires used_or_marked { UsedOrMarked register_count words.now (link_of register_count words.now p 1) × UsedOrMarked register_count words.now (link_of register_count words.now p 2) }
    requires cells { (0 < p) × (p ≤ n) × (link_of register_count words.now p 1 ≤ n) × (link_of register_count words.now p 2 ≤ n) × (pool_length register_count n ≤ length words.now) }
    ensures { links_of result ≡ onward_in register_count words.now p }
{
    if state == Pool::MARKED_POINT {
        return Onward::Nowhere;
    }
    let left = pool::read_cell(words, p, Pool::LEFT);
    let right = pool::read_cell(words, p, Pool::RIGHT);
    if is_open(words, left) {
        if left == right {
            Onward::To(left)
        } else if is_open(words, right) {
            Onward::Both(left, right)
        } else {
            Onward::To(left)
        }
    } else if is_open(words, right) {
        Onward::To(right)
    } else {
        Onward::Nowhere
    }
}

// From an entry of the stack: while a cell has one unmarked link, marks it and goes there. Gives the cell reached where two are unmarked, and 0 where none is.
// (The result is the word that goes into the stack in the place of the entry: an Option would be taken apart only to write its 0.)
// The state of the cell is at hand wherever it was just written, so that it need not be read back.
fn walk(words: &mut [u32], n: u32, entry: u32) -> u32
    requires walkable { Walkable register_count n words.old entry }
    requires n_in_bounds { pool_length register_count n ≤ length words.old }
    ensures { (h : Walkable register_count n words.old entry) → (words.new, entry_of result) ≡ walk_in register_count n words.old entry h }
{
    let mut p = entry;
    let mut state = pool::read_cell(words, p, Pool::STATE);
    loop {
        match look(words, n, p, state) {
            Onward::Both(_, _) => return p,
            Onward::To(x) => {
                marks::mark_cell(words, x);
                p = x;
                state = pool::read_cell(words, p, Pool::STATE);
            }
            Onward::Nowhere => return 0,
        }
    }
}

// Puts what its walk gives in the place of each entry, from the top one to the bottom.
fn walk_entries(words: &mut [u32], n: u32, stack: &mut [u32])
    requires checkable { Checkable register_count n words.old stack.old }
    requires n_in_bounds { pool_length register_count n ≤ length words.old }
    ensures { (h : Checkable register_count n words.old stack.old) → (words.new, without_nil (entries stack.new (length stack.old))) ≡ check_in register_count n words.old stack.old h }
{
    for i in (0..stack.len()).rev() {
        stack[i] = walk(words, n, stack[i]);
    }
}

// Moves the entries that are left to the bottom, in their order. Gives how many they are.
fn close_gaps(stack: &mut [u32]) -> usize
    ensures { entries stack.new result ≡ without_nil (entries stack.old (length stack.old)) }
{
    let mut kept = 0;
    for i in 0..stack.len() {
        let entry = stack[i];
        if entry != 0 {
            stack[kept] = entry;
            kept += 1;
        }
    }
    kept
}

// Checks the entries of a full stack: those that are left stand at the bottom. Gives how many they are.
pub fn check(words: &mut [u32], n: u32, stack: &mut [u32]) -> usize
    requires checkable { Checkable register_count n words.old stack.old }
    requires n_in_bounds { pool_length register_count n ≤ length words.old }
    ensures { (h : Checkable register_count n words.old stack.old) → (words.new, entries stack.new result) ≡ check_in register_count n words.old stack.old h }
{
    walk_entries(words, n, stack);
    close_gaps(stack)
}
