// The text of replies: what is printed for a line of a script.
#![tactic(auto)]

ghost use Rattle.std.specs.Prelude.{◌+◌, ◌≤◌, ◌≡◌, ◌++◌, length, Ok};
ghost use Rattle.answers.specs.Outcome.{answer_outcome};
ghost use Rattle.replies.specs.Replies.{decimal, spaced, outcome_text, reply_text, reply_room, PutText, reply_at};

use answers::{Answer, Refusal};

// What is printed for a line. (No Option of an answer: that a line is bad is a reply too, and none that is missing.)
#[derive(Clone, Copy)]
pub enum Reply {
    // To a line of another form.
    Bad,
    Answered(Result<Answer, Refusal>),
}

impl Reply {
    // No text is longer: "ok", two numbers of ten digits, each after a space, and the line end.
    pub const ROOM: usize = 25;
}

// Writes the text of a reply at a place of `out`, if there is room for any, and gives the place behind its last byte; with too little room it writes nothing.
pub fn write_reply(out: &mut [u8], at: usize, reply: Reply) -> Option<usize>
    ensures { (result, out.new) ≡ reply_at out.old at (reply_text reply) }
{
    if out.len() < at {
        return None;
    }
    if out.len() - at < Reply::ROOM {
        return None;
    }
    Some(put_reply(out, at, reply))
}

fn put_reply(out: &mut [u8], at: usize, reply: Reply) -> usize
    requires { at + reply_room ≤ length out.old }
    ensures put_text { PutText out.old at (reply_text reply) result out.new }
    ensures reply_len_bound { length (reply_text reply) ≤ reply_room }
{
    match reply {
        Reply::Bad => put(out, at, b"bad\n"),
        Reply::Answered(answer) => put_answer(out, at, answer),
    }
}

fn put_answer(out: &mut [u8], at: usize, answer: Result<Answer, Refusal>) -> usize
    requires { at + reply_room ≤ length out.old }
    ensures put_text { PutText out.old at (outcome_text (answer_outcome answer)) result out.new }
    ensures answer_len_bound { length (outcome_text (answer_outcome answer)) ≤ reply_room }
{
    match answer {
        Ok(given) => put_given(out, at, given),
        Err(why) => put_line(out, at, b"no", &[why.number()]),
    }
}

fn put_given(out: &mut [u8], at: usize, answer: Answer) -> usize
    requires { at + reply_room ≤ length out.old }
    ensures put_text { PutText out.old at (outcome_text (answer_outcome (Ok answer))) result out.new }
    ensures answer_len_bound { length (outcome_text (answer_outcome (Ok answer))) ≤ reply_room }
{
    match answer {
        Answer::Done | Answer::Allocated { .. } => put_line(out, at, b"ok", &[]),
        Answer::Number(x) => put_line(out, at, b"ok", &[x]),
        Answer::Pair(x, y) => put_line(out, at, b"ok", &[x, y]),
    }
}

// A word and numbers, each after a space, and the line end.
fn put_line(out: &mut [u8], at: usize, word: &[u8], numbers: &[u32]) -> usize
    requires { at + length (word.now ++ spaced numbers.now) ≤ length out.old }
    ensures { PutText out.old at (word.now ++ spaced numbers.now) result out.new }
{
    let next = put(out, at, word);
    put_numbers(out, next, numbers)
}

// Numbers, each after a space, and the line end.
fn put_numbers(out: &mut [u8], at: usize, numbers: &[u32]) -> usize
    requires { at + length (spaced numbers.now) ≤ length out.old }
    ensures { PutText out.old at (spaced numbers.now) result out.new }
{
    match numbers {
        [] => put(out, at, b"\n"),
        [x, more @ ..] => {
            let space = put(out, at, b" ");
            let next = put_decimal(out, space, *x);
            put_numbers(out, next, more)
        }
    }
}

// The digits of a number, the highest first. (By hand: with the library's printer of numbers, which has a buffer of its own, scripts took up to a tenth longer.)
fn put_decimal(out: &mut [u8], at: usize, v: u32) -> usize
    requires { at + length (decimal v) ≤ length out.old }
    ensures { PutText out.old at (decimal v) result out.new }
{
    if v < 10 {
        return put(out, at, &[b'0' + v as u8]);
    }
    let next = put_decimal(out, at, v / 10);
    put(out, next, &[b'0' + (v % 10) as u8])
}

// A text; the place behind it.
fn put(out: &mut [u8], at: usize, text: &[u8]) -> usize
    requires { at + length text.now ≤ length out.old }
    ensures { PutText out.old at text.now result out.new }
{
    let next = at + text.len();
    out[at..next].copy_from_slice(text);
    next
}
