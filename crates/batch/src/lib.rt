// Runs a list of calls that stands in lent words, and writes the answers to lent words.
#![tactic(auto)]

ghost use Rattle.std.specs.Prelude.{◌≡◌, ◌+◌, ◌*◌, ◌≤◌, length};
ghost use Rattle.answers.specs.Outcome.{answer_outcome};
ghost use Rattle.batch.specs.Program.{call_numbered};
ghost use Rattle.batch.specs.Run.{written, run_of};
ghost use Rattle.batch.specs.Steps.{entry_at};

use answers::{Answer, Refusal};
use calls::Call;

// Why a run ended before the end of the list, and how many calls ran.
#[derive(Clone, Copy)]
pub enum Stopped {
    // At an entry that is no call: an unknown code, or fewer than five words.
    Malformed(usize),
    // At a call for whose answer there is no room.
    NoRoom(usize),
}

// The words of an entry of the list, a code and its arguments.
const ENTRY: usize = 5;

// The call of a code and its arguments.
fn call_numbered(code: u32, x: u32, y: u32, z: u32, u: u32) -> Option<Call>
    ensures { result ≡ call_numbered code x y z u }
{
    match code {
        0 => Some(Call::Copy { r: x, a: y }),
        1 => Some(Call::Clear { r: x }),
        2 => Some(Call::New {
            r: x,
            a: y,
            b: z,
            v: u,
        }),
        3 => Some(Call::Left { r: x, a: y }),
        4 => Some(Call::Right { r: x, a: y }),
        5 => Some(Call::SetLeft { a: x, b: y }),
        6 => Some(Call::SetRight { a: x, b: y }),
        7 => Some(Call::SetValue { a: x, v: y }),
        8 => Some(Call::Value { a: x }),
        9 => Some(Call::Same { a: x, b: y }),
        10 => Some(Call::Collect),
        11 => Some(Call::Point {
            r: x,
            v: y,
            x: z,
            y: u,
        }),
        12 => Some(Call::East { a: x }),
        13 => Some(Call::North { a: x }),
        _ => None,
    }
}

// The entry that begins at a word of the list.
fn entry(list: &[u32], at: usize) -> Option<Call>
    requires { at ≤ length list.now }
    ensures { result ≡ entry_at list.now at }
{
    if list.len() - at < ENTRY {
        return None;
    }
    call_numbered(
        list[at],
        list[at + 1],
        list[at + 2],
        list[at + 3],
        list[at + 4],
    )
}

// Writes the answer of the call at place k.
fn write_answer(answers: &mut [u32], k: usize, answer: Result<Answer, Refusal>)
    requires { 3 * k + 3 ≤ length answers.old }
    ensures { answers.new ≡ written answers.old k (answer_outcome answer) }
{
    answers[3 * k] = answers::status(answer);
    answers[3 * k + 1] = answers::first(answer);
    answers[3 * k + 2] = answers::second(answer);
}

// Runs the calls of the list, one after the other, and writes three words for each: 0 or the number of its refusal, then the numbers that it
// gives. It stops at an entry that is no call, and where three answer words are no longer left. Gives the number of calls.
pub fn run(words: &mut [u32], list: &[u32], answers: &mut [u32]) -> Result<usize, Stopped>
    ensures { (result, words.new, answers.new) ≡ run_of list.now words.old answers.old }
{
    let entries = list.len().div_ceil(ENTRY);
    for k in 0..entries {
        let Some(call) = entry(list, ENTRY * k) else {
            return Err(Stopped::Malformed(k));
        };
        if answers.len() < 3 * k + 3 {
            return Err(Stopped::NoRoom(k));
        }
        let step = steps::perform(words, call);
        write_answer(answers, k, step.answer);
    }
    Ok(entries)
}
