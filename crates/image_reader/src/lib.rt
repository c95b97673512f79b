// Reading an image number by number: each with its bound, or why it is refused.
#![tactic(auto)]

ghost use Rattle.std.specs.Prelude.{◌≡◌};
ghost use Rattle.image.specs.Kinds.{kind_numbered};
ghost use Rattle.image.specs.Image.{refusal_of, parsed, at_most, read_number, read_count, read_link, read_kind, read_word};
ghost use Rattle.image_reader.specs.Steps.{field_parsed, kind_parsed, highest_word};

use answers::Refusal;
use leb128::{Number, NumberError};
use pool::Kind;

// The kind of a cell that was read, and the place behind it.
#[derive(Clone, Copy, PartialEq, Eq, Debug)]
pub struct KindRead {
    pub kind: Kind,
    pub next: usize,
}

// Why a number of an image is refused that the reader does not find.
fn refusal_of(why: NumberError) -> Refusal
    ensures { result ≡ refusal_of why }
{
    match why {
        NumberError::Missing => Refusal::Truncated,
        NumberError::OutOfRange => Refusal::OutOfRange,
        NumberError::Padded => Refusal::Padded,
    }
}

// Any number.
pub fn read_number(bytes: &[u8], at: usize) -> Result<Number, Refusal>
    ensures { field_parsed result ≡ read_number bytes.now at }
{
    reader::number_at(bytes, at).map_err(refusal_of)
}

// A number that is refused above `most`.
fn at_most(number: Number, most: u32, over: Refusal) -> Result<Number, Refusal>
    ensures { field_parsed result ≡ at_most most over (parsed number.value number.next) }
{
    if most < number.value {
        Err(over)
    } else {
        Ok(number)
    }
}

// The number of cells, of an image for a pool of n cells.
pub fn read_count(bytes: &[u8], n: u32) -> Result<Number, Refusal>
    ensures { field_parsed result ≡ read_count n bytes.now }
{
    at_most(read_number(bytes, 0)?, n, Refusal::TooManyCells)
}

// A register or a link, of an image of k cells.
pub fn read_link(bytes: &[u8], at: usize, k: u32) -> Result<Number, Refusal>
    ensures { field_parsed result ≡ read_link k bytes.now at }
{
    at_most(read_number(bytes, at)?, k, Refusal::LinkRange)
}

// The kind of a cell: one byte, 0 or 1, in every image that is accepted, so that byte is asked first; any other number is no kind.
pub fn read_kind(bytes: &[u8], at: usize) -> Result<KindRead, Refusal>
    ensures { kind_parsed result ≡ read_kind bytes.now at }
{
    if at < bytes.len() {
        let first = bytes[at];
        if first == 0 {
            return Ok(KindRead {
                kind: Kind::Pair,
                next: at + 1,
            });
        }
        if first == 1 {
            return Ok(KindRead {
                kind: Kind::Point,
                next: at + 1,
            });
        }
    }
    read_number(bytes, at)?;
    Err(Refusal::KindNumber)
}

// The highest number that may stand to the left or right in a cell of that kind, of an image of k cells.
fn highest_word(k: u32, kind: Kind) -> u32
    ensures { result ≡ highest_word k kind }
{
    match kind {
        Kind::Pair => k,
        Kind::Point => u32::MAX,
    }
}

// The left or right number of a cell of the kind of that number, of an image of k cells: a link of a pair, any number of a point.
pub fn read_word(bytes: &[u8], at: usize, k: u32, kind: u32) -> Result<Number, Refusal>
    ensures { field_parsed result ≡ read_word k (kind_numbered kind) bytes.now at }
{
    at_most(
        read_number(bytes, at)?,
        highest_word(k, image::kind_numbered(kind)),
        Refusal::LinkRange,
    )
}
