// The collection: it marks and sweeps a pool; that of the firmware marks by link reversal.
#![tactic(auto)]

ghost use Rattle.std.specs.Prelude.{◌≡◌, ℕ, ◌≤◌, List, true, false, length, MatchResult};
ghost use Rattle.std.specs.Fn.{FnOnceTakesAtMut, FnOnceReturnsAtMut};
ghost use Rattle.pool.specs.Layout.{register_count, cell_limit, pool_length};
ghost use Rattle.pool.specs.Retain.{sweep_of};
ghost use Rattle.questions.specs.Validity.{well_formed};
ghost use Rattle.answers.specs.declared.Refusal.{Refusal};
ghost use Rattle.answers.specs.declared.Refusal.TheVariants as Refusal;
ghost use Rattle.answers.specs.Outcome.{answer_outcome};
ghost use Rattle.collector.specs.Collect.{collect_in, collect_of};

use answers::{Answer, Refusal};

// What every collection of a pool of n cells does, by whatever marker: a well-formed pool is marked and swept. Gives how many cells are kept, and what the
// marker gave.
pub fn mark_and_sweep<T, F: FnOnce(&mut [u32]) -> T + Drop>(
    words: &mut [u32],
    n: u32,
    mark: F,
) -> Result<(u32, T), Refusal>
    requires n_in_bounds { pool_length register_count n ≤ length words.old }
    requires marker { well_formed register_count n words.old ≡ true → FnOnceTakesAtMut F.FnOnce mark words.old }
    ensures { MatchResult result (λ r. (well_formed register_count n words.old ≡ true) × ((marked : List ℕ) × FnOnceReturnsAtMut F.FnOnce mark words.old r.1 marked × ◌≡◌ {A = ℕ × List ℕ} (r.0, words.new) (sweep_of register_count n marked))) (λ refusal. (well_formed register_count n words.old ≡ false) × (refusal ≡ Refusal.Malformed) × (words.new ≡ words.old)) }
{
    if questions::well_formed(words, n) {
        let marked = mark(words);
        let kept = marks::sweep(words, n);
        Ok((kept, marked))
    } else {
        Err(Refusal::Malformed)
    }
}

// Marks and sweeps a pool of n cells.
pub fn collect_in(words: &mut [u32], n: u32) -> Result<Answer, Refusal>
    requires { (pool_length register_count n ≤ length words.old) × (n ≤ cell_limit) }
    ensures { (answer_outcome result, words.new) ≡ collect_in n words.old }
{
    let (kept, visits) = mark_and_sweep(words, n, |words: &mut [u32]| reversal::mark(words, n))?;
    Ok(Answer::Pair(kept, visits))
}

// Keeps exactly the cells that the registers reach, and frees all others.
pub fn collect(words: &mut [u32]) -> Result<Answer, Refusal>
    ensures { (answer_outcome result, words.new) ≡ collect_of words.old }
{
    let n = questions::sized(words)?;
    collect_in(words, n)
}
