// The fourteen calls on a pool. Each asks the first two questions and then runs its body, which is in `operations`, `allocator` or `collector`. They take
// any words and any numbers.
#![tactic(auto)]

ghost use Rattle.std.specs.Prelude.{◌≡◌};
ghost use Rattle.answers.specs.Outcome.{answer_outcome};
ghost use Rattle.calls.specs.Calls.{call_of};

use answers::{Answer, Refusal};
use pool::Pool;

// A call: r, a and b are register numbers, v is a value, x and y are coordinates.
#[derive(Clone, Copy)]
pub enum Call {
    Copy { r: u32, a: u32 },
    Clear { r: u32 },
    New { r: u32, a: u32, b: u32, v: u32 },
    Left { r: u32, a: u32 },
    Right { r: u32, a: u32 },
    SetLeft { a: u32, b: u32 },
    SetRight { a: u32, b: u32 },
    SetValue { a: u32, v: u32 },
    Value { a: u32 },
    Same { a: u32, b: u32 },
    Collect,
    Point { r: u32, v: u32, x: u32, y: u32 },
    East { a: u32 },
    North { a: u32 },
}

// copy r a: r gets what a holds.
pub fn copy(words: &mut [u32], r: u32, a: u32) -> Result<Answer, Refusal>
    ensures { (answer_outcome result, words.new) ≡ call_of (Call.Copy r a) words.old }
{
    let n = questions::admit(words, &[r, a])?;
    operations::copy_in(words, n, r, a)
}

// clear r: r becomes nil.
pub fn clear(words: &mut [u32], r: u32) -> Result<Answer, Refusal>
    ensures { (answer_outcome result, words.new) ≡ call_of (Call.Clear r) words.old }
{
    questions::admit(words, &[r])?;
    operations::clear_in(words, r)
}

// new r a b v: r gets a new pair with left from a, right from b, and value v. Where no cell is free it collects first.
pub fn new(words: &mut [u32], r: u32, a: u32, b: u32, v: u32) -> Result<Answer, Refusal>
    ensures { (answer_outcome result, words.new) ≡ call_of (Call.New r a b v) words.old }
{
    let n = questions::admit(words, &[r, a, b])?;
    allocator::new_in(words, n, r, a, b, v)
}

// left r a: r gets the left link of a's pair.
pub fn left(words: &mut [u32], r: u32, a: u32) -> Result<Answer, Refusal>
    ensures { (answer_outcome result, words.new) ≡ call_of (Call.Left r a) words.old }
{
    let n = questions::admit(words, &[r, a])?;
    operations::follow_in(words, n, Pool::LEFT, r, a)
}

// right r a: r gets the right link of a's pair.
pub fn right(words: &mut [u32], r: u32, a: u32) -> Result<Answer, Refusal>
    ensures { (answer_outcome result, words.new) ≡ call_of (Call.Right r a) words.old }
{
    let n = questions::admit(words, &[r, a])?;
    operations::follow_in(words, n, Pool::RIGHT, r, a)
}

// setleft a b: the left link of a's pair becomes what b holds.
pub fn set_left(words: &mut [u32], a: u32, b: u32) -> Result<Answer, Refusal>
    ensures { (answer_outcome result, words.new) ≡ call_of (Call.SetLeft a b) words.old }
{
    let n = questions::admit(words, &[a, b])?;
    operations::link_in(words, n, Pool::LEFT, a, b)
}

// setright a b: the right link of a's pair becomes what b holds.
pub fn set_right(words: &mut [u32], a: u32, b: u32) -> Result<Answer, Refusal>
    ensures { (answer_outcome result, words.new) ≡ call_of (Call.SetRight a b) words.old }
{
    let n = questions::admit(words, &[a, b])?;
    operations::link_in(words, n, Pool::RIGHT, a, b)
}

// setvalue a v: the value of a's cell becomes v.
pub fn set_value(words: &mut [u32], a: u32, v: u32) -> Result<Answer, Refusal>
    ensures { (answer_outcome result, words.new) ≡ call_of (Call.SetValue a v) words.old }
{
    let n = questions::admit(words, &[a])?;
    operations::set_value_in(words, n, a, v)
}

// value a: the value of a's cell.
pub fn value(words: &[u32], a: u32) -> Result<Answer, Refusal>
    ensures { (answer_outcome result, words.now) ≡ call_of (Call.Value a) words.now }
{
    let n = questions::admit(words, &[a])?;
    operations::value_in(words, n, a)
}

// same a b: 1 if both hold the same link, else 0.
pub fn same(words: &[u32], a: u32, b: u32) -> Result<Answer, Refusal>
    ensures { (answer_outcome result, words.now) ≡ call_of (Call.Same a b) words.now }
{
    let n = questions::admit(words, &[a, b])?;
    operations::same_in(words, n, a, b)
}

// collect: keeps exactly the cells that the registers reach, and frees all others.
pub fn collect(words: &mut [u32]) -> Result<Answer, Refusal>
    ensures { (answer_outcome result, words.new) ≡ call_of Call.Collect words.old }
{
    let n = questions::admit(words, &[])?;
    collector::collect_in(words, n)
}

// point r v x y: r gets a new point with value v and the coordinates x and y. Where no cell is free it collects first.
pub fn point(words: &mut [u32], r: u32, v: u32, x: u32, y: u32) -> Result<Answer, Refusal>
    ensures { (answer_outcome result, words.new) ≡ call_of (Call.Point r v x y) words.old }
{
    let n = questions::admit(words, &[r])?;
    allocator::point_in(words, n, r, v, x, y)
}

// east a: x of a's point.
pub fn east(words: &[u32], a: u32) -> Result<Answer, Refusal>
    ensures { (answer_outcome result, words.now) ≡ call_of (Call.East a) words.now }
{
    let n = questions::admit(words, &[a])?;
    operations::coordinate_in(words, n, Pool::LEFT, a)
}

// north a: y of a's point.
pub fn north(words: &[u32], a: u32) -> Result<Answer, Refusal>
    ensures { (answer_outcome result, words.now) ≡ call_of (Call.North a) words.now }
{
    let n = questions::admit(words, &[a])?;
    operations::coordinate_in(words, n, Pool::RIGHT, a)
}
