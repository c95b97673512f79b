// Marking by link reversal: its visits from one register and from all.
#![tactic(auto)]

ghost use Rattle.std.specs.Prelude.{◌≡◌, ℕ, suc, ◌-◌, ◌≤◌, List, true, length};
ghost use Rattle.pool.specs.Layout.{register_count, cell_limit, pool_length, state};
ghost use Rattle.questions.specs.Validity.{well_formed};
ghost use Rattle.visit.specs.Visit.{marker};
ghost use Rattle.reversal.specs.Reversal.{Run};
ghost use Rattle.reversal.specs.Steps.{Ending, InHand, turn_of};
ghost use Rattle.reversal.specs.ReversalTheorem.{marked_of};

use pool::Pool;
use visit::Marker;

// The marks of a pair that was visited once, and twice.
const FIRST_MARK: u32 = 1;

const SECOND_MARK: u32 = 2;

// A visit of the cell in hand, and up to MORE others as long as it stays in hand. Inlined, and its loop is unrolled then, so that the mark is known at each.
#[inline(always)]
fn visits<const MORE: u32>(mut m: Marker, words: &mut [u32], n: u32) -> Marker
    requires { InHand register_count n (m, words.old) }
    ensures { (result, words.new) ≡ turn_of register_count MORE (m, words.old) }
{
    let cell = m.cell;
    for _left in (0..MORE).rev() {
        m = m.visit(words, n);
        if m.cell != cell {
            return m;
        }
    }
    m.visit(words, n)
}

// A turn of the loop: a visit of the cell in hand, and then the others that it has left, 2 less its mark, for as long as it stays in hand. A point, whose
// state is above 2, has no other.
fn turn(m: Marker, words: &mut [u32], n: u32) -> Marker
    requires { InHand register_count n (m, words.old) }
    ensures { (result, words.new) ≡ turn_of register_count (2 - state register_count words.old m.cell) (m, words.old) }
{
    let mark = pool::read_cell(words, m.cell, Pool::STATE);
    match mark {
        // An arm of its own, so that this mark is known too.
        SECOND_MARK => m.visit(words, n),
        FIRST_MARK => visits::<1>(m, words, n),
        Pool::PAIR => visits::<2>(m, words, n),
        _ => m.visit(words, n),
    }
}

// Marks from an unmarked link until the virtual root, which is no cell, is in hand. Gives the visits made so far. Gries makes one visit in a turn of
// the loop; here a turn makes as many as it can of one cell, so that the processor need not store and load its words between them, and the compiler knows the
// mark at each.
fn mark_from(words: &mut [u32], n: u32, p: u32, visits: u32) -> u32
    requires { (Ending register_count n (marker p (suc n) visits, words.old)) × (pool_length register_count n ≤ length words.old) × (n ≤ cell_limit) }
    ensures { (u : ℕ × List ℕ) → Run register_count n p (visits, words.old) u → ◌≡◌ {A = ℕ × List ℕ} (result, words.new) u }
{
    let mut m = Marker {
        cell: p,
        previous: n + 1,
        visits,
    };
    while m.cell <= n {
        m = turn(m, words, n);
    }
    m.visits
}

// Marks every cell that the registers reach, in the order of the registers. Gives the number of visits.
pub fn mark(words: &mut [u32], n: u32) -> u32
    requires { (well_formed register_count n words.old ≡ true) × (pool_length register_count n ≤ length words.old) × (n ≤ cell_limit) }
    ensures { (result, words.new) ≡ marked_of register_count n words.old }
{
    let mut visits = 0;
    for k in 0..Pool::REGISTERS {
        let p = pool::read_register(words, k);
        if visit::is_unmarked(words, p) {
            visits = mark_from(words, n, p, visits);
        }
    }
    visits
}
