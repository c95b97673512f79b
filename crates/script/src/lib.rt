// The text of scripts, read a byte at a time.
#![tactic(auto)]

ghost use Rattle.std.specs.Prelude.{◌≡◌, ◌≤◌, drop, length};
ghost use Rattle.script.specs.Reader.{new_reader, first_number, space_of, longer_of, digit_of, last_of, feed_of, end_of, begun_of};
ghost use Rattle.script.specs.Scripts.{next_line};

use lines::Line;

// How far a line is read.
#[derive(Clone, Copy)]
pub enum LineReader {
    // Nothing is read.
    Start,
    // The letter is read.
    Letter(u8),
    // The letter is read, a space behind it, and maybe more.
    Numbers(Numbers),
    // No line that starts so is good.
    Bad,
}

// The letter of a line and its numbers, of which one has begun last.
#[derive(Clone, Copy)]
pub struct Numbers {
    pub letter: u8,
    // How many numbers stand before the last, and the latest three of them, in their order. (An array beside its count: readers are copied, and there is no heap.)
    pub count: usize,
    pub before: [u32; 3],
    // The last number, once it has a digit.
    pub last: Option<u32>,
}

// What a part of a script gives next. (No Result: that the line goes on is no failure, and the reader is handed on.)
#[derive(Clone, Copy)]
pub enum Found {
    // A line ends: what it says, if it has the form of one, and the place behind its line feed.
    Line { line: Option<Line>, next: usize },
    // The part ends, and the line goes on behind it.
    More(LineReader),
}

impl Numbers {
    // The letter is read, and a space.
    fn first(letter: u8) -> Numbers
        ensures { result ≡ first_number letter }
    {
        Numbers {
            letter,
            count: 0,
            before: [0; 3],
            last: None,
        }
    }

    // After a space.
    #[tactic(auto, unfolding(crate::specs::Reader::space_of))]
    fn space(self) -> LineReader
        ensures { result ≡ space_of self }
    {
        let [_, second, third] = self.before;
        match self.last {
            Some(last) if self.count < 3 => LineReader::Numbers(Numbers {
                letter: self.letter,
                count: self.count + 1,
                before: [second, third, last],
                last: None,
            }),
            _ => LineReader::Bad,
        }
    }

    // The last number with one more digit; none where the byte is no digit, or the number not below 2^32.
    #[tactic(auto, unfolding(crate::specs::Reader::longer_of))]
    fn longer(self, b: u8) -> Option<u32>
        ensures { result ≡ longer_of self b }
    {
        if !b.is_ascii_digit() {
            return None;
        }
        let v = 10 * u64::from(self.last.unwrap_or(0)) + u64::from(b - b'0');
        u32::try_from(v).ok()
    }

    // After a byte of a number.
    #[tactic(auto, unfolding(crate::specs::Reader::digit_of))]
    fn digit(self, b: u8) -> LineReader
        ensures { result ≡ digit_of self b }
    {
        match self.longer(b) {
            Some(value) => LineReader::Numbers(Numbers {
                last: Some(value),
                ..self
            }),
            None => LineReader::Bad,
        }
    }

    // Reads the digits that stand at a place: the same as to feed them one by one, and quicker.
    fn digits(self, bytes: &[u8], at: usize) -> (LineReader, usize)
        requires { at ≤ length bytes.now }
        ensures { (at ≤ result.1) × (next_line result.0 (drop result.1 bytes.now) result.1 ≡ next_line (LineReader.Numbers self) (drop at bytes.now) at) }
    {
        let mut numbers = self;
        for i in at..bytes.len() {
            let Some(value) = numbers.longer(bytes[i]) else {
                return (LineReader::Numbers(numbers), i);
            };
            numbers.last = Some(value);
        }
        (LineReader::Numbers(numbers), bytes.len())
    }

    // The line ends here: what it says.
    #[tactic(auto, unfolding(crate::specs::Reader::last_of))]
    fn end(self) -> Option<Line>
        ensures { result ≡ last_of self }
    {
        let last = self.last?;
        let [first, second, third] = self.before;
        // (An arm for each count, so that the compiler knows how many numbers there are.)
        match self.count {
            0 => lines::command(self.letter, &[last]),
            1 => lines::command(self.letter, &[third, last]),
            2 => lines::command(self.letter, &[second, third, last]),
            _ => lines::command(self.letter, &[first, second, third, last]),
        }
    }
}

impl LineReader {
    // Nothing is read.
    pub fn new() -> LineReader
        ensures { result ≡ new_reader }
    {
        LineReader::Start
    }

    // One more byte of the line, no line feed.
    #[tactic(auto, unfolding(crate::specs::Reader::feed_of))]
    fn feed(self, b: u8) -> LineReader
        ensures { result ≡ feed_of self b }
    {
        match self {
            LineReader::Numbers(numbers) if b == b' ' => numbers.space(),
            LineReader::Numbers(numbers) => numbers.digit(b),
            LineReader::Letter(letter) if b == b' ' => LineReader::Numbers(Numbers::first(letter)),
            LineReader::Start if b != b' ' => LineReader::Letter(b),
            _ => LineReader::Bad,
        }
    }

    // Has the line a byte?
    #[tactic(auto, unfolding(crate::specs::Reader::begun_of))]
    pub fn begun(self) -> bool
        ensures { result ≡ begun_of self }
    {
        !matches!(self, LineReader::Start)
    }

    // The line ends here: what it says, if it has the form of one.
    #[tactic(auto, unfolding(crate::specs::Reader::end_of))]
    pub fn end(self) -> Option<Line>
        ensures { result ≡ end_of self }
    {
        match self {
            LineReader::Letter(letter) => lines::command(letter, &[]),
            LineReader::Numbers(numbers) => numbers.end(),
            LineReader::Start | LineReader::Bad => None,
        }
    }

    // Reads on in a part of the script, from a place on, up to the next line feed.
    #[tactic(auto, unfolding(crate::specs::Scripts::next_line))]
    pub fn next_line(self, bytes: &[u8], at: usize) -> Found
        ensures { result ≡ next_line self (drop at bytes.now) at }
    {
        let mut reader = self;
        let mut i = at;
        // (No `for`: a step reads on behind all digits that stand there, which is faster.)
        while i < bytes.len() {
            let b = bytes[i];
            if b == b'\n' {
                return Found::Line {
                    line: reader.end(),
                    next: i + 1,
                };
            }
            (reader, i) = match reader.feed(b) {
                LineReader::Numbers(numbers) => numbers.digits(bytes, i + 1),
                fed => (fed, i + 1),
            };
        }
        Found::More(reader)
    }
}
