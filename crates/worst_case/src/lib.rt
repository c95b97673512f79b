// The pool that fills the stack of the stack marker: for whoever sizes the stack.
#![tactic(auto)]

ghost use Rattle.std.specs.Prelude.{◌≡◌, ◌≤◌, length};
ghost use Rattle.pool.specs.Layout.{register_count, cell_limit, pool_length};
ghost use Rattle.answers.specs.Outcome.{answer_outcome};
ghost use Rattle.stack_algorithm.specs.Comb.{or_nil};
ghost use Rattle.worst_case.specs.WorstCase.{put_comb, worst_case_of};

use answers::{Answer, Refusal};
use pool::{Cell, Pool};

// A link to cell x of n cells, nil where x is past n.
fn or_nil(n: u32, x: u32) -> u32
    ensures { result ≡ or_nil n x }
{
    if n < x { 0 } else { x }
}

// Writes the cells of a left comb of n cells, all used and with value 0: an even cell is a leaf, and an odd one leads to the next odd cell on the left and to
// the next even one on the right.
fn put_comb(words: &mut [u32], n: u32)
    requires { (pool_length register_count n ≤ length words.old) × (n ≤ cell_limit) }
    ensures { words.new ≡ put_comb register_count n n words.old }
{
    for i in (0..n).rev() {
        let cell = i + 1;
        if cell % 2 == 0 {
            let leaf = Cell {
                state: Pool::PAIR,
                left: 0,
                right: 0,
                value: 0,
            };
            pool::put_cell(words, cell, leaf);
        } else {
            let pair = Cell {
                state: Pool::PAIR,
                left: or_nil(n, cell + 2),
                right: or_nil(n, cell + 1),
                value: 0,
            };
            pool::put_cell(words, cell, pair);
        }
    }
}

// Makes the words a pool of as many cells as they hold, all of them used and reached from register 0, for which the stack marker holds the most entries.
// Answers how many these are: (n - 1) / 2.
pub fn worst_case(words: &mut [u32]) -> Result<Answer, Refusal>
    ensures { (answer_outcome result, words.new) ≡ worst_case_of words.old }
{
    let Some(n) = pool::cell_count_of_length(words.len()) else {
        return Err(Refusal::Size);
    };
    pool::blank(words, n);
    pool::write_register(words, 0, 1);
    put_comb(words, n);
    Ok(Answer::Number((n - 1) / 2))
}
