// Why an operation is refused, what it answers, and the numbers of an answer.
#![tactic(auto)]

ghost use Rattle.std.specs.Prelude.{◌≡◌};
ghost use Rattle.answers.specs.Outcome.{refusal_number, status, given, answer_outcome};

// Why a call is refused. The numbers are those of the interface.
#[derive(Clone, Copy, Debug, PartialEq, Eq)]
pub enum Refusal {
    // The words are no pool: their length, or their number of cells; or N or the kept cells are out of range.
    Size = 1,
    // No such register.
    Register = 2,
    // A register that is read, a link, the head or the pool is malformed.
    Malformed = 3,
    // The register holds no cell.
    Nil = 4,
    // No cell is free, also after a collection.
    Full = 5,
    // The bytes end within a number.
    Truncated = 6,
    // A number of 2^32 or more.
    OutOfRange = 7,
    // A link of an image past its cells.
    LinkRange = 8,
    // An image of more cells than the pool has.
    TooManyCells = 9,
    // Too little room is lent.
    NoRoom = 10,
    // The pool is too large for the recursive marker.
    TooLarge = 11,
    // A number of an image is written in more groups than it needs.
    Padded = 12,
    // A point where a pair is needed, or a pair where a point is.
    Kind = 13,
    // A number of an image that is no kind of cell.
    KindNumber = 14,
}

// What an operation answers, where it is not refused.
#[derive(Clone, Copy, Debug, PartialEq, Eq)]
pub enum Answer {
    // Done, with nothing to tell.
    Done,
    // A cell was taken; how many visits a collection made for it, 0 where none was needed.
    Allocated { visits: u32 },
    Number(u32),
    Pair(u32, u32),
}

impl Refusal {
    // The number that the interface gives this refusal.
    pub fn number(self) -> u32
        ensures { result ≡ refusal_number self }
    {
        self as u32
    }
}

// 0, or the number of the refusal.
pub fn status(answer: Result<Answer, Refusal>) -> u32
    ensures { result ≡ status (answer_outcome answer) }
{
    match answer {
        Ok(_) => 0,
        Err(why) => why.number(),
    }
}

// The first number that the answer gives, or 0 where it gives none.
pub fn first(answer: Result<Answer, Refusal>) -> u32
    ensures { result ≡ given (answer_outcome answer) 0 0 }
{
    match answer {
        Ok(Answer::Allocated { visits }) => visits,
        Ok(Answer::Number(x)) => x,
        Ok(Answer::Pair(x, _)) => x,
        _ => 0,
    }
}

// The second number that the answer gives, or 0 where it gives none.
pub fn second(answer: Result<Answer, Refusal>) -> u32
    ensures { result ≡ given (answer_outcome answer) 1 0 }
{
    match answer {
        Ok(Answer::Pair(_, y)) => y,
        _ => 0,
    }
}
