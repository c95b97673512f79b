// Marking with a lent stack, whose entries are checked where its words are full.
#![tactic(auto)]

ghost use Rattle.std.specs.Prelude.{◌≡◌, [], ◌∷◌, ◌≤◌, length, true};
ghost use Rattle.pool.specs.Layout.{register_count, pool_length};
ghost use Rattle.questions.specs.Validity.{well_formed};
ghost use Rattle.stack_check.specs.Steps.{Pending};
ghost use Rattle.bounded_stack.specs.Steps.{cleared, result_in, run_from_cell, pool_run};

use pool::Pool;
use stack_check::Onward;

// How a marking went: was the stack enough, and how many checks ran?
// (No Result: the checks are counted in both cases, so that both of its sides would be the same number.)
#[derive(Clone, Copy)]
pub struct Marking {
    pub enough: bool,
    pub checks: u32,
}

// Marks from a cell in hand that was just marked, with the entries of the stack in the lent words, until the stack is empty, or a check of full words finds
// no entry that may go. Then some cells are left marked.
fn mark_from(words: &mut [u32], n: u32, stack: &mut [u32], p: u32) -> Marking
    requires pending { Pending register_count n words.old (p ∷ []) }
    requires n_in_bounds { pool_length register_count n ≤ length words.old }
    ensures { (h : Pending register_count n words.old (p ∷ [])) → (words.new, result.enough, result.checks) ≡ result_in register_count h.pool (run_from_cell register_count n (length stack.old) p words.old h) }
{
    let mut hand = p;
    let mut top = 0;
    let mut checks = 0;
    let mut state = pool::read_cell(words, hand, Pool::STATE);
    loop {
        match stack_check::look(words, n, hand, state) {
            Onward::Both(left, right) => {
                marks::mark_both(words, left, right);
                if top == stack.len() {
                    let remaining = stack_check::check(words, n, stack);
                    checks += 1;
                    if remaining == top {
                        return Marking {
                            enough: false,
                            checks,
                        };
                    }
                    top = remaining;
                }
                stack[top] = right;
                top += 1;
                hand = left;
                state = pool::read_cell(words, hand, Pool::STATE);
            }
            Onward::To(x) => {
                marks::mark_cell(words, x);
                hand = x;
                state = pool::read_cell(words, hand, Pool::STATE);
            }
            Onward::Nowhere => {
                if top == 0 {
                    return Marking {
                        enough: true,
                        checks,
                    };
                }
                top -= 1;
                hand = stack[top];
                state = pool::read_cell(words, hand, Pool::STATE);
            }
        }
    }
}

// Makes every marked cell used again.
pub fn clear_marks(words: &mut [u32], n: u32)
    requires { pool_length register_count n ≤ length words.old }
    ensures { words.new ≡ cleared register_count n words.old }
{
    for i in (0..n).rev() {
        if marks::is_marked(pool::read_cell(words, i + 1, Pool::STATE)) {
            marks::unmark_cell(words, i + 1);
        }
    }
}

// Marks from every register in order, as long as the stack is enough. Where it is not, some cells are left marked.
pub fn mark_registers(words: &mut [u32], n: u32, stack: &mut [u32]) -> Marking
    requires { (well_formed register_count n words.old ≡ true) × (pool_length register_count n ≤ length words.old) }
    ensures { (words.new, result.enough, result.checks) ≡ result_in register_count words.old (pool_run register_count n (length stack.old) words.old) }
{
    let mut checks = 0;
    for k in 0..Pool::REGISTERS {
        let p = pool::read_register(words, k);
        if visit::is_unmarked(words, p) {
            marks::mark_cell(words, p);
            let run = mark_from(words, n, stack, p);
            checks += run.checks;
            if !run.enough {
                return Marking {
                    enough: false,
                    checks,
                };
            }
        }
    }
    Marking {
        enough: true,
        checks,
    }
}
