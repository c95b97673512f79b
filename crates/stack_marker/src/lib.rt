// Marking with a lent stack, by reversal where it is not enough, and the collection that marks so.
#![tactic(auto)]

ghost use Rattle.std.specs.Prelude.{◌≡◌, ◌≤◌, length, true};
ghost use Rattle.pool.specs.Layout.{register_count, cell_limit, pool_length};
ghost use Rattle.questions.specs.Validity.{well_formed};
ghost use Rattle.stack_marker.specs.StackCollect.{stack_outcome, marked_by, stack_in, stack_of};

use answers::Refusal;
use bounded_stack::Marking;

// What a collection with a lent stack answers: how many cells it kept, whether the stack was enough, and how many checks of its entries ran.
#[derive(Clone, Copy)]
pub struct StackCollection {
    pub kept: u32,
    pub enough: bool,
    pub checks: u32,
}

// Marks every cell that the registers reach, with the lent stack where it is enough, and otherwise by reversal, which starts anew. Was it enough, and
// how many checks ran?
fn mark(words: &mut [u32], n: u32, stack: &mut [u32]) -> Marking
    requires { (well_formed register_count n words.old ≡ true) × (pool_length register_count n ≤ length words.old) × (n ≤ cell_limit) }
    ensures { (words.new, result.enough, result.checks) ≡ marked_by n words.old stack.old }
{
    let marking = bounded_stack::mark_registers(words, n, stack);
    if !marking.enough {
        bounded_stack::clear_marks(words, n);
        reversal::mark(words, n);
    }
    marking
}

// Marks and sweeps a pool of n cells, and sets the lent words to 0.
// (Not by `collector::mark_and_sweep`: where it refuses, nothing is proved of the lent words, which its marker, not called then, has borrowed.)
fn collect_in(words: &mut [u32], n: u32, stack: &mut [u32]) -> Result<StackCollection, Refusal>
    requires { (pool_length register_count n ≤ length words.old) × (n ≤ cell_limit) }
    ensures { (stack_outcome result, words.new, stack.new) ≡ stack_in n words.old stack.old }
{
    if questions::well_formed(words, n) {
        let marking = mark(words, n, stack);
        let kept = marks::sweep(words, n);
        pool::clear(stack);
        Ok(StackCollection {
            kept,
            enough: marking.enough,
            checks: marking.checks,
        })
    } else {
        Err(Refusal::Malformed)
    }
}

// Collects with a lent stack: the pool ends as after `collect`, and the lent words end 0.
pub fn collect_stack(words: &mut [u32], stack: &mut [u32]) -> Result<StackCollection, Refusal>
    ensures { (stack_outcome result, words.new, stack.new) ≡ stack_of words.old stack.old }
{
    let n = questions::sized(words)?;
    collect_in(words, n, stack)
}
