// The recursive procedure of Gries 2006 as a marker, for pools of at most 64 cells (01: bench marker).
#![tactic(auto)]

ghost use Rattle.std.specs.Prelude.{◌≡◌, ℕ, ◌≤◌, List, true, length};
ghost use Rattle.pool.specs.Layout.{register_count, pool_length};
ghost use Rattle.questions.specs.Validity.{well_formed};
ghost use Rattle.reversal.specs.ReversalTheorem.{marked_of};
ghost use Rattle.answers.specs.Outcome.{answer_outcome};
ghost use Rattle.collector.specs.Collect.{collect_in};
ghost use Rattle.recursive_marker.specs.Recursive.{recursion_limit, recursive_of};
ghost use Rattle.recursive_marker.specs.Steps.{Markable, visited};

use answers::{Answer, Refusal};
use pool::Pool;

// The most cells of a pool that is marked so. In a chain of that many cells the visit of the first cell has depth 64, that of the last depth 1, and the
// visits of its links, which are nil, depth 0.
const DEPTH: u32 = 64;

// Marks the link's cell, if it is unmarked, and what its links lead to, with so much depth left. (Gries tests a link before the call, this in the
// call.) Gives the visits made so far: one of the cell itself, and of a pair one after its left link and one after its right link.
fn visit(words: &mut [u32], n: u32, depth: u32, p: u32, visits: u32) -> u32
    requires { Markable register_count n depth p visits words.old }
    ensures { (h : Markable register_count n depth p visits words.old) → ◌≡◌ {A = ℕ × List ℕ} (result, words.new) (visited register_count n depth p visits words.old h) }
{
    if visit::is_unmarked(words, p) {
        if pool::is_point_at(words, p) {
            marks::mark_cell(words, p);
            return visits + 1;
        }
        marks::mark_cell(words, p);
        let left = pool::link_of(words, p, Pool::LEFT);
        let after_left = visit(words, n, depth - 1, left, visits + 1);
        let right = pool::link_of(words, p, Pool::RIGHT);
        let after_right = visit(words, n, depth - 1, right, after_left + 1);
        after_right + 1
    } else {
        visits
    }
}

// Marks every cell that the registers reach, in the order of the registers. Gives the number of visits.
fn mark(words: &mut [u32], n: u32) -> u32
    requires { (well_formed register_count n words.old ≡ true) × (pool_length register_count n ≤ length words.old) × (n ≤ recursion_limit) }
    ensures { (result, words.new) ≡ marked_of register_count n words.old }
{
    let mut visits = 0;
    for k in 0..Pool::REGISTERS {
        let p = pool::read_register(words, k);
        visits = visit(words, n, DEPTH, p, visits);
    }
    visits
}

// Marks and sweeps a pool of n cells.
fn collect_in(words: &mut [u32], n: u32) -> Result<Answer, Refusal>
    requires { (pool_length register_count n ≤ length words.old) × (n ≤ recursion_limit) }
    ensures { (answer_outcome result, words.new) ≡ collect_in n words.old }
{
    let (kept, visits) = collector::mark_and_sweep(words, n, |words: &mut [u32]| mark(words, n))?;
    Ok(Answer::Pair(kept, visits))
}

// Collects a pool of at most 64 cells: the answer and the words are those of `collect`.
pub fn collect_recursive(words: &mut [u32]) -> Result<Answer, Refusal>
    ensures { (answer_outcome result, words.new) ≡ recursive_of words.old }
{
    let n = questions::sized(words)?;
    if DEPTH < n {
        return Err(Refusal::TooLarge);
    }
    collect_in(words, n)
}
