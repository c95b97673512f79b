// Scripts that are read in parts and run on a pool, with replies that are written in parts.
#![tactic(auto)]

ghost use Rattle.std.specs.Prelude.{◌≡◌, ◌+◌, ◌&&◌, leb, ltb};
ghost use Rattle.replies.specs.Replies.{reply_room};
ghost use Rattle.runner.specs.Work.{HasRoom, LineRun, Advanced, Worked, initial, handed};

use lines::Line;
use replies::Reply;
use script::{Found, LineReader};

// How far a script is run.
#[derive(Clone, Copy)]
pub struct Progress {
    // How many words are the pool's.
    pub used: usize,
    // The line that has begun.
    pub reader: LineReader,
    // The place in the part of the script that is read.
    pub at: usize,
    // How many bytes of replies wait to be written.
    pub put: usize,
}

impl Progress {
    // Nothing is read, there is no pool, and nothing waits.
    pub fn start() -> Progress
        ensures { result ≡ initial }
    {
        Progress {
            used: 0,
            reader: LineReader::new(),
            at: 0,
            put: 0,
        }
    }

    // Handed on to the next part: it is read from its first byte on, and nothing waits.
    pub fn handed(self) -> Progress
        ensures { result ≡ handed self }
    {
        Progress {
            at: 0,
            put: 0,
            ..self
        }
    }
}

// Runs the lines of a part of a script, from a place on, up to the part's end or until too little room is left for a reply. What is promised is what the
// script prints from there on; nothing is said of the words behind the pool's, of the bytes behind the replies, or of the reader within a line.
pub fn work(words: &mut [u32], bytes: &[u8], out: &mut [u8], progress: Progress) -> Progress
    ensures { Worked bytes.now words.old out.old progress words.new out.new result }
{
    let mut p = progress;
    while goes_on(bytes.len(), out.len(), p) {
        p = advance(words, bytes, out, p);
    }
    p
}

// Is there more of the part, and room for a reply?
fn goes_on(len: usize, room: usize, p: Progress) -> bool
    ensures { result ≡ (ltb p.at len && leb (p.put + reply_room) room) }
{
    p.at < len && p.put <= room && Reply::ROOM <= room - p.put
}

// Reads on to the end of the line, and runs it, or to the end of the part.
fn advance(words: &mut [u32], bytes: &[u8], out: &mut [u8], p: Progress) -> Progress
    requires { HasRoom out.old p }
    ensures { Advanced bytes.now words.old out.old p words.new out.new result }
{
    match p.reader.next_line(bytes, p.at) {
        Found::Line { line, next } => run_line(words, out, p, line, next),
        Found::More(reader) => Progress {
            reader,
            at: bytes.len(),
            ..p
        },
    }
}

// Runs a line that ends at `next`, and puts its reply behind those that wait.
fn run_line(
    words: &mut [u32],
    out: &mut [u8],
    p: Progress,
    line: Option<Line>,
    next: usize,
) -> Progress
    requires { HasRoom out.old p }
    ensures { LineRun line next words.old out.old p words.new out.new result }
{
    let turn = interpreter::execute(words, p.used, line);
    let put = replies::write_reply(out, p.put, turn.reply).unwrap();
    Progress {
        used: turn.used,
        reader: LineReader::new(),
        at: next,
        put,
    }
}
