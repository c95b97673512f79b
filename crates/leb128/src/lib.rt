// Numbers in groups of seven bits, lowest first: unsigned LEB128 of 32 bits.
#![tactic(auto)]

ghost use Rattle.std.specs.Prelude.{◌≡◌, ◌++◌, ◌+◌, ◌<◌, ◌≤◌, length, get_or, take, drop, MatchResult};
ghost use Rattle.leb128.specs.Leb128.{encode, read_at};

// A number that was read, and the place behind its last byte.
#[derive(Clone, Copy, PartialEq, Eq, Debug)]
pub struct Number {
    pub value: u32,
    pub next: usize,
}

// Why there is no number at a place of the bytes.
#[derive(Clone, Copy, PartialEq, Eq, Debug)]
pub enum NumberError {
    // The bytes end before the number does.
    Missing,
    // The fifth group is above 0F.
    OutOfRange,
    // The last group is 0, and not the only one.
    Padded,
}

// The weight of the fifth group, 2^28.
const FIFTH: u32 = 268435456;

// The group at a place of the bytes.
fn group_at(bytes: &[u8], at: usize) -> Result<u32, NumberError>
    ensures { MatchResult result (λ group. (at < length bytes.now) × (group < 256) × (group ≡ get_or bytes.now at 0)) (λ why. (length bytes.now ≤ at) × (why ≡ NumberError.Missing)) }
{
    match bytes.get(at) {
        Some(byte) => Ok(*byte as u32),
        None => Err(NumberError::Missing),
    }
}

// The number at a place of the bytes.
pub fn read_number(bytes: &[u8], at: usize) -> Result<Number, NumberError>
    ensures { result ≡ read_at bytes.now at }
{
    let first = group_at(bytes, at)?;
    if first < 128 {
        return Ok(Number {
            value: first,
            next: at + 1,
        });
    }
    let mut value = first - 128;
    let mut weight: u32 = 128;
    let mut next = at + 1;
    // Not a `for` over the three groups, which the compiler unrolls: that reads points slower, takes more stack, and registers of SSE.
    while weight < FIFTH {
        let group = group_at(bytes, next)?;
        value += weight * (group % 128);
        next += 1;
        if group < 128 {
            if group == 0 {
                return Err(NumberError::Padded);
            }
            return Ok(Number { value, next });
        }
        weight *= 128;
    }
    let fifth = group_at(bytes, next)?;
    if 16 <= fifth {
        return Err(NumberError::OutOfRange);
    }
    if fifth == 0 {
        return Err(NumberError::Padded);
    }
    Ok(Number {
        value: value + FIFTH * fifth,
        next: next + 1,
    })
}

// How many groups a number takes.
pub fn number_size(v: u32) -> usize
    ensures { result ≡ length (encode v) }
{
    if v < 128 {
        1
    } else if v < 16384 {
        2
    } else if v < 2097152 {
        3
    } else if v < FIFTH {
        4
    } else {
        5
    }
}

// Writes a number at a place of `out` where there is room for it. Gives the place behind it.
pub fn write_number(out: &mut [u8], at: usize, v: u32) -> usize
    requires { at + length (encode v) ≤ length out.old }
    ensures { (result ≡ at + length (encode v)) × (out.new ≡ take at out.old ++ encode v ++ drop (at + length (encode v)) out.old) }
{
    let mut rest = v;
    let mut i = at;
    // Not a `for` over the places: the loop ends by what is left of the number, and how many places there are is known only then.
    while 128 <= rest {
        out[i] = (rest % 128 + 128) as u8;
        rest /= 128;
        i += 1;
    }
    out[i] = rest as u8;
    i + 1
}
