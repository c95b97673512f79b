// One step: a call that stands in an enum, run on a pool.
#![tactic(auto)]

ghost use Rattle.std.specs.Prelude.{◌≡◌};
ghost use Rattle.answers.specs.Outcome.{answer_outcome};
ghost use Rattle.calls.specs.Calls.{call_of};

use answers::{Answer, Refusal};
use calls::Call;

// A call with its answer.
#[derive(Clone, Copy)]
pub struct Step {
    pub call: Call,
    pub answer: Result<Answer, Refusal>,
}

// Runs the call.
fn answer(call: Call, words: &mut [u32]) -> Result<Answer, Refusal>
    ensures { (answer_outcome result, words.new) ≡ call_of call words.old }
{
    match call {
        Call::Copy { r, a } => calls::copy(words, r, a),
        Call::Clear { r } => calls::clear(words, r),
        Call::New { r, a, b, v } => calls::new(words, r, a, b, v),
        Call::Left { r, a } => calls::left(words, r, a),
        Call::Right { r, a } => calls::right(words, r, a),
        Call::SetLeft { a, b } => calls::set_left(words, a, b),
        Call::SetRight { a, b } => calls::set_right(words, a, b),
        Call::SetValue { a, v } => calls::set_value(words, a, v),
        Call::Value { a } => calls::value(words, a),
        Call::Same { a, b } => calls::same(words, a, b),
        Call::Collect => calls::collect(words),
        Call::Point { r, v, x, y } => calls::point(words, r, v, x, y),
        Call::East { a } => calls::east(words, a),
        Call::North { a } => calls::north(words, a),
    }
}

// One step: runs the call, and gives it back with its answer.
pub fn perform(words: &mut [u32], call: Call) -> Step
    ensures { (result.call ≡ call) × ((answer_outcome result.answer, words.new) ≡ call_of call words.old) }
{
    let answer = answer(call, words);
    Step { call, answer }
}
