// Scripts on a pool: what a line does to the pool, and what is printed for it.
#![tactic(auto)]

ghost use Rattle.std.specs.Prelude.{◌≡◌, ◌≤◌, length, Some};
ghost use Rattle.replies.specs.Replies.{reply_text};
ghost use Rattle.interpreter.specs.Execute.{used_of, size_of, execute_of};

use answers::{Answer, Refusal};
use calls::Call;
use lines::Line;
use pool::Pool;
use replies::Reply;

// What a line leaves beside the words: how many of them are the pool's, and what is printed.
#[derive(Clone, Copy)]
pub struct Turn {
    pub used: usize,
    pub reply: Reply,
}

// Runs a line, none where it is of another form, on the words lent, of which the pool has the first `used`; none where there are fewer.
pub fn execute(words: &mut [u32], used: usize, line: Option<Line>) -> Turn
    ensures { (reply_text result.reply, result.used, words.new) ≡ execute_of line used words.old }
{
    let pool = pool_words(words.len(), used);
    match line {
        None => Turn {
            used: pool,
            reply: Reply::Bad,
        },
        Some(Line::Fresh(n)) => make(words, pool, n),
        Some(Line::Run(call)) => run(words, pool, call),
    }
}

// How many of the words are the pool's.
fn pool_words(len: usize, used: usize) -> usize
    ensures { result ≡ used_of len used }
{
    if used <= len { used } else { 0 }
}

// The words of a pool of n cells; none where there is no such pool or too few words are lent.
fn size(len: usize, n: u32) -> Option<usize>
    ensures { result ≡ size_of len n }
{
    if n == 0 || Pool::CELLS < n {
        return None;
    }
    let words = Pool::FIRST_CELL + Pool::CELL_WORDS * n as usize;
    if words <= len { Some(words) } else { None }
}

// Makes the pool anew, of n cells; refused, it stays as it is.
fn make(words: &mut [u32], used: usize, n: u32) -> Turn
    requires { used ≤ length words.old }
    ensures { (reply_text result.reply, result.used, words.new) ≡ execute_of (Some (Line.Fresh n)) used words.old }
{
    let Some(size) = size(words.len(), n) else {
        return Turn {
            used,
            reply: Reply::Answered(Err(Refusal::Size)),
        };
    };
    let _ = Pool::fresh(&mut words[..size]);
    Turn {
        used: size,
        reply: Reply::Answered(Ok(Answer::Done)),
    }
}

// Runs a call on the pool.
fn run(words: &mut [u32], used: usize, call: Call) -> Turn
    requires { used ≤ length words.old }
    ensures { (reply_text result.reply, result.used, words.new) ≡ execute_of (Some (Line.Run call)) used words.old }
{
    let step = steps::perform(&mut words[..used], call);
    Turn {
        used,
        reply: Reply::Answered(step.answer),
    }
}
