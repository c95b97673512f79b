// The bodies of the calls but `new`, `point` and `collect`: each is a call behind its first two questions. The words hold n cells, and every register number is
// below the register count. The answer of a register read is taken
// apart by `let .. else`, so that its refusal is seen to come before any write.
#![tactic(auto)]

ghost use Rattle.std.specs.Prelude.{◌≡◌, ◌<◌, ◌≤◌, length, true};
ghost use Rattle.pool.specs.Layout.{register_count, pool_length, state};
ghost use Rattle.pool.specs.States.{is_used, is_point_kind};
ghost use Rattle.answers.specs.Outcome.{answer_outcome};
ghost use Rattle.operations.specs.Operations.{held_cell_of, is_of_kind, held_kind_of, copy_in, clear_in, follow_in, link_in, set_value_in, value_in, coordinate_in, same_in};

use answers::{Answer, Refusal};
use pool::{Kind, Pool};

// The cell that a holds.
fn held_cell(words: &[u32], n: u32, a: u32) -> Result<u32, Refusal>
    requires { (pool_length register_count n ≤ length words.now) × (a < register_count) }
    ensures { result ≡ held_cell_of n words.now a }
{
    let Ok(x) = questions::read_link(words, n, a) else {
        return Err(Refusal::Malformed);
    };
    if x == 0 {
        return Err(Refusal::Nil);
    }
    Ok(x)
}

// Is the cell, which is used, of the kind that is asked for?
#[tactic(auto, unfolding(pool::specs::States::is_used, pool::specs::States::is_point))]
fn is_of_kind(words: &[u32], x: u32, kind: Kind) -> bool
    requires { (0 < x) × (pool_length register_count x ≤ length words.now) × (is_used (state register_count words.now x) ≡ true) }
    ensures { result ≡ is_of_kind (is_point_kind kind) words.now x }
{
    let state = pool::read_cell(words, x, Pool::STATE);
    match kind {
        Kind::Pair => state != Pool::POINT,
        Kind::Point => state == Pool::POINT,
    }
}

// The cell that a holds, where it is of that kind.
fn held_kind(words: &[u32], n: u32, a: u32, kind: Kind) -> Result<u32, Refusal>
    requires { (pool_length register_count n ≤ length words.now) × (a < register_count) }
    ensures { result ≡ held_kind_of (is_point_kind kind) n words.now a }
{
    let x = held_cell(words, n, a)?;
    if is_of_kind(words, x, kind) {
        Ok(x)
    } else {
        Err(Refusal::Kind)
    }
}

// r gets what a holds.
pub fn copy_in(words: &mut [u32], n: u32, r: u32, a: u32) -> Result<Answer, Refusal>
    requires { (pool_length register_count n ≤ length words.old) × (r < register_count) × (a < register_count) }
    ensures { (answer_outcome result, words.new) ≡ copy_in n words.old r a }
{
    let Ok(x) = questions::read_link(words, n, a) else {
        return Err(Refusal::Malformed);
    };
    pool::write_register(words, r, x);
    Ok(Answer::Done)
}

// r becomes nil.
pub fn clear_in(words: &mut [u32], r: u32) -> Result<Answer, Refusal>
    requires { (pool_length register_count 0 ≤ length words.old) × (r < register_count) }
    ensures { (answer_outcome result, words.new) ≡ clear_in words.old r }
{
    pool::write_register(words, r, 0);
    Ok(Answer::Done)
}

// r gets a link of a's pair: field 1 is left, 2 is right.
pub fn follow_in(words: &mut [u32], n: u32, field: usize, r: u32, a: u32) -> Result<Answer, Refusal>
    requires { (pool_length register_count n ≤ length words.old) × (field < 4) × (r < register_count) × (a < register_count) }
    ensures { (answer_outcome result, words.new) ≡ follow_in n words.old field r a }
{
    let x = held_kind(words, n, a, Kind::Pair)?;
    let link = pool::read_cell(words, x, field);
    if questions::valid_link(words, n, link) {
        pool::write_register(words, r, link);
        Ok(Answer::Done)
    } else {
        Err(Refusal::Malformed)
    }
}

// A link of a's pair becomes what b holds.
pub fn link_in(words: &mut [u32], n: u32, field: usize, a: u32, b: u32) -> Result<Answer, Refusal>
    requires { (pool_length register_count n ≤ length words.old) × (field < 4) × (a < register_count) × (b < register_count) }
    ensures { (answer_outcome result, words.new) ≡ link_in n words.old field a b }
{
    let Ok(y) = questions::read_link(words, n, b) else {
        return Err(Refusal::Malformed);
    };
    let x = held_kind(words, n, a, Kind::Pair)?;
    pool::write_cell(words, x, field, y);
    Ok(Answer::Done)
}

// The value of a's cell becomes v.
pub fn set_value_in(words: &mut [u32], n: u32, a: u32, v: u32) -> Result<Answer, Refusal>
    requires { (pool_length register_count n ≤ length words.old) × (a < register_count) }
    ensures { (answer_outcome result, words.new) ≡ set_value_in n words.old a v }
{
    let x = held_cell(words, n, a)?;
    pool::write_cell(words, x, Pool::VALUE, v);
    Ok(Answer::Done)
}

// The value of a's cell.
pub fn value_in(words: &[u32], n: u32, a: u32) -> Result<Answer, Refusal>
    requires { (pool_length register_count n ≤ length words.now) × (a < register_count) }
    ensures { (answer_outcome result, words.now) ≡ value_in n words.now a }
{
    let x = held_cell(words, n, a)?;
    Ok(Answer::Number(pool::read_cell(words, x, Pool::VALUE)))
}

// A coordinate of a's point: field 1 is x, 2 is y.
pub fn coordinate_in(words: &[u32], n: u32, field: usize, a: u32) -> Result<Answer, Refusal>
    requires { (pool_length register_count n ≤ length words.now) × (field < 4) × (a < register_count) }
    ensures { (answer_outcome result, words.now) ≡ coordinate_in n words.now field a }
{
    let x = held_kind(words, n, a, Kind::Point)?;
    Ok(Answer::Number(pool::read_cell(words, x, field)))
}

// Do a and b hold the same link?
pub fn same_in(words: &[u32], n: u32, a: u32, b: u32) -> Result<Answer, Refusal>
    requires { (pool_length register_count n ≤ length words.now) × (a < register_count) × (b < register_count) }
    ensures { (answer_outcome result, words.now) ≡ same_in n words.now a b }
{
    let Ok(x) = questions::read_link(words, n, a) else {
        return Err(Refusal::Malformed);
    };
    let Ok(y) = questions::read_link(words, n, b) else {
        return Err(Refusal::Malformed);
    };
    Ok(Answer::Number(u32::from(x == y)))
}
