// The questions that are asked of a pool's words before anything else: is this a pool, are these registers, is a link valid, is the pool well-formed?
#![tactic(auto)]

ghost use Rattle.std.specs.Prelude.{◌≡◌, ◌<◌, ◌≤◌, length};
ghost use Rattle.pool.specs.Layout.{register_count, pool_length};
ghost use Rattle.questions.specs.Validity.{valid_link, registers_valid, cells_valid, well_formed};
ghost use Rattle.questions.specs.Steps.{plausible_link, plausible_cell};
ghost use Rattle.questions.specs.Questions.{sized_of, are_registers, admit_of, held_of};

use answers::Refusal;
use pool::Pool;

// The first question: are the words a pool? It hands on the number of cells.
pub fn sized(words: &[u32]) -> Result<u32, Refusal>
    ensures { result ≡ sized_of words.now }
{
    let Some(n) = pool::cell_count_of_length(words.len()) else {
        return Err(Refusal::Size);
    };
    if words[Pool::COUNT] == n {
        Ok(n)
    } else {
        Err(Refusal::Size)
    }
}

// The second question: are these registers?
fn are_registers(named: &[u32]) -> bool
    ensures { result ≡ are_registers named.now }
{
    named.iter().all(|k| *k < Pool::REGISTERS)
}

// The first two questions, of a call that names these registers.
pub fn admit(words: &[u32], named: &[u32]) -> Result<u32, Refusal>
    ensures { result ≡ admit_of words.now named.now }
{
    let n = sized(words)?;
    if are_registers(named) {
        Ok(n)
    } else {
        Err(Refusal::Register)
    }
}

// Is the link nil, or a used cell's number?
pub fn valid_link(words: &[u32], n: u32, x: u32) -> bool
    requires { pool_length register_count n ≤ length words.now }
    ensures { result ≡ valid_link register_count n words.now x }
{
    x == 0 || x <= n && pool::is_used(pool::read_cell(words, x, Pool::STATE))
}

// What a register holds, if it is a valid link.
pub fn read_link(words: &[u32], n: u32, k: u32) -> Result<u32, Refusal>
    requires { (k < register_count) × (pool_length register_count n ≤ length words.now) }
    ensures { result ≡ held_of n words.now k }
{
    let x = pool::read_register(words, k);
    if valid_link(words, n, x) {
        Ok(x)
    } else {
        Err(Refusal::Malformed)
    }
}

// Is the link nil, or the number of a cell that is not free? Where every state is used or free, such a link is valid, and the state is compared once and not
// twice.
fn plausible_link(words: &[u32], n: u32, x: u32) -> bool
    requires { pool_length register_count n ≤ length words.now }
    ensures { result ≡ plausible_link register_count n words.now x }
{
    x == 0 || x <= n && pool::read_cell(words, x, Pool::STATE) != Pool::FREE
}

// Is the cell free, or used with plausible links? Of a point nothing else is asked.
#[tactic(auto, unfolding(pool::specs::States::is_used, pool::specs::States::is_free, pool::specs::States::is_point, pool::specs::Layout::link_of))]
fn plausible_cell(words: &[u32], n: u32, i: u32) -> bool
    requires { (0 < i) × (i ≤ n) × (pool_length register_count n ≤ length words.now) }
    ensures { result ≡ plausible_cell register_count n words.now i }
{
    match pool::read_cell(words, i, Pool::STATE) {
        Pool::PAIR => {
            plausible_link(words, n, pool::read_cell(words, i, Pool::LEFT))
                && plausible_link(words, n, pool::read_cell(words, i, Pool::RIGHT))
        }
        Pool::FREE | Pool::POINT => true,
        _ => false,
    }
}

// The last register is asked first, and so is the last cell: where only that is at fault, nothing else is asked.
fn registers_valid(words: &[u32], n: u32) -> bool
    requires { pool_length register_count n ≤ length words.now }
    ensures { result ≡ registers_valid register_count n words.now }
{
    (0..Pool::REGISTERS).all(|k| valid_link(
        words,
        n,
        pool::read_register(words, Pool::REGISTERS - 1 - k),
    ))
}

fn cells_valid(words: &[u32], n: u32) -> bool
    requires { pool_length register_count n ≤ length words.now }
    ensures { result ≡ cells_valid register_count n words.now }
{
    (0..n).all(|i| plausible_cell(words, n, n - i))
}

// Is every state used or free, and every register and every link of a used cell valid?
pub fn well_formed(words: &[u32], n: u32) -> bool
    requires { pool_length register_count n ≤ length words.now }
    ensures { result ≡ well_formed register_count n words.now }
{
    registers_valid(words, n) && cells_valid(words, n)
}
