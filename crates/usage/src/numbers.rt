// A reader is laid over bytes, and advances in place, number by number.
ghost use Rattle.std.specs.Prelude.{◌≡◌};
ghost use Rattle.usage.specs.Numbers.{two_numbers};

use leb128::{Number, NumberError};
use reader::Reader;

// Two numbers that a reader read, and the place where it stands behind them.
#[derive(Clone, Copy)]
pub struct Two {
    pub first: Result<Number, NumberError>,
    pub second: Result<Number, NumberError>,
    pub at: usize,
}

// Reads two numbers by one reader: it advances behind the first, and then behind the second.
fn read_two(bytes: &[u8], at: usize) -> Two
    ensures { result ≡ two_numbers bytes.now at }
{
    let mut reader = Reader::new(bytes, at);
    let first = reader.next_number();
    let second = reader.next_number();
    Two {
        first,
        second,
        at: reader.at,
    }
}

fn show(rt: &impl Print, number: Result<Number, NumberError>) {
    let _ = match number {
        Ok(Number { value, next }) => println!(rt;
            "number, and the place behind it: {value} {next}"
        ),
        Err(NumberError::Missing) => println!(rt; "no number: the bytes end"),
        Err(NumberError::OutOfRange) => println!(rt; "no number: 2^32 or more"),
        Err(NumberError::Padded) => println!(rt; "no number: more groups than it needs"),
    };
}

fn show_two(rt: &impl Print, two: Two) {
    show(rt, two.first);
    show(rt, two.second);
    let _ = println!(rt; "the reader stands at {}", two.at);
}

// The numbers of the customer's examples, 127, 128, 300 and 4294967295, then one whose last byte is missing, and 5 written as 85 00, which is refused.
pub fn read_in_turn(rt: &impl Print) {
    let bytes = b"\x7f\x80\x01\xac\x02\xff\xff\xff\xff\x0f\xff";
    let two = read_two(bytes, 0);
    show_two(rt, two);
    let four = read_two(bytes, two.at);
    show_two(rt, four);
    let end = read_two(bytes, four.at);
    show_two(rt, end);
    let padded = read_two(b"\x85\x00", 0);
    show_two(rt, padded);
}
