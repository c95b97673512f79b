// A reader that is laid over bytes and advances number by number.
#![tactic(auto)]

ghost use Rattle.std.specs.Prelude.{◌≡◌};
ghost use Rattle.leb128.specs.Leb128.{read_at};
ghost use Rattle.reader.specs.Reading.{place_behind};

use leb128::{Number, NumberError};

// The bytes, and the place of the next number.
#[derive(Clone, Copy)]
pub struct Reader<'a> {
    pub bytes: &'a [u8],
    pub at: usize,
}

impl<'a> Reader<'a> {
    // A reader over the bytes, at a place of them.
    pub fn new(bytes: &'a [u8], at: usize) -> Reader<'a>
        ensures { (result.bytes ≡ bytes.entry) × (result.at ≡ at) }
    {
        Reader { bytes, at }
    }

    // Reads the next number, and advances behind it; where there is none, it stays.
    pub fn next_number(&mut self) -> Result<Number, NumberError>
        ensures { (result ≡ read_at self.old.bytes.now self.old.at) × (self.new.bytes ≡ self.old.bytes) × (self.new.at ≡ place_behind result self.old.at) }
    {
        let number = leb128::read_number(self.bytes, self.at);
        if let Ok(read) = number {
            self.at = read.next;
        }
        number
    }
}

// The number at a place of the bytes, by a reader that is laid over them there.
pub fn number_at(bytes: &[u8], at: usize) -> Result<Number, NumberError>
    ensures { result ≡ read_at bytes.now at }
{
    Reader::new(bytes, at).next_number()
}
