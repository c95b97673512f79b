// Runs a script from standard input, and writes the reply to each line to standard output. Its memory does not grow with the script.
#![tactic(auto)]

ghost use Rattle.std.specs.Prelude.{◌≡◌, true, is_ok};
ghost use Rattle.runscript.specs.Parts.{LinesRun, PartRun, Finished, ReadRun, Continued, goes_on};

use pool::Pool;
use runner::Progress;
use std::env::{Env, FillError};
use std::fmt;
use std::io::Read;

// The words of the largest pool.
const WORDS: usize = Pool::FIRST_CELL + Pool::CELL_WORDS * Pool::CELLS as usize;

// The bytes of a part of the script, and of the replies that wait.
const BUFFER: usize = 65536;

// Why a script is not run to its end.
#[derive(Clone, Copy)]
enum Failure {
    Read,
    Write,
}

impl fmt::Display for Failure {
    fn fmt<W: fmt::Write>(&self, f: &mut fmt::Formatter<W>) -> fmt::Result {
        match self {
            Failure::Read => write!(f, "cannot read"),
            Failure::Write => write!(f, "cannot write"),
        }
    }
}

// A script that is being run: the words lent to its pool, the bytes of its replies, and how far it is run.
#[derive(Drop)]
struct ScriptRun {
    words: [u32; WORDS],
    out: [u8; BUFFER],
    progress: Progress,
}

impl ScriptRun {
    // Runs lines of a part up to its end, or until no more replies fit, and writes the replies.
    fn run_some(&mut self, rt: &impl Print, bytes: &[u8]) -> Result<(), Failure>
        requires { self.old.progress.put ≡ 0 }
        ensures { LinesRun bytes.now self.old.words self.old.progress self.new.words self.new.out self.new.progress }
    {
        let progress = runner::work(&mut self.words, bytes, &mut self.out, self.progress);
        self.progress = Progress { put: 0, ..progress };
        rt.write_all(&self.out[..progress.put])
            .map_err(|_| Failure::Write)
    }

    // Runs the lines of a part of the script, and writes their replies.
    fn run_part(&mut self, rt: &impl Print, bytes: &[u8]) -> Result<(), Failure>
        ensures { PartRun bytes.now self.old.words self.old.progress self.new.words self.new.progress (is_ok result) }
    {
        self.progress = self.progress.handed();
        while self.progress.at < bytes.len() {
            self.run_some(rt, bytes)?;
        }
        Ok(())
    }

    // Runs the last line, which has no line feed: the end of the input ends it as a line feed does.
    fn run_last(&mut self, rt: &impl Print) -> Result<(), Failure>
        ensures { Finished self.old.words self.old.progress self.new.out }
    {
        if self.progress.reader.begun() {
            self.progress = self.progress.handed();
            self.run_some(rt, b"\n")?;
        }
        Ok(())
    }

    // Runs what was read, and says whether the script goes on: a part of the script, or at the end of the input, where that is nothing, the last line.
    fn run_read(&mut self, rt: &impl Print, bytes: &[u8]) -> Result<bool, Failure>
        ensures { ReadRun bytes.now self.old.words self.old.progress self.new.words self.new.out self.new.progress (goes_on result) }
    {
        if bytes.is_empty() {
            self.run_last(rt)?;
            return Ok(false);
        }
        self.run_part(rt, bytes)?;
        Ok(true)
    }

    // Reads the next part of the script into the buffer, and runs it.
    fn read_part(
        &mut self,
        rt: &impl Print,
        input: &mut impl Read,
        buffer: &mut [u8],
    ) -> Result<bool, Failure>
        ensures { goes_on result ≡ true → Continued self.old.words self.old.progress self.new.words buffer.new self.new.progress }
    {
        let n = input.read(buffer).map_err(|_| Failure::Read)?;
        self.run_read(rt, &buffer[..n])
    }
}

// Runs the script on standard input. A proved loop has to end, and nothing says that the input does: the loop has a number of reads that no run uses up.
fn run(rt: &(impl Print + Input)) -> Result<(), Failure> {
    let mut run = ScriptRun {
        words: [0; WORDS],
        out: [0; BUFFER],
        progress: Progress::start(),
    };
    let mut buffer = [0u8; BUFFER];
    let mut input = rt.reader();
    'parts: for _ in 0..u64::MAX {
        if !run.read_part(rt, &mut input, &mut buffer)? {
            break;
        }
    }
    Ok(())
}

// Is there an argument behind the program's name? Its bytes are not looked at.
fn has_argument(rt: &impl Env) -> bool {
    !matches!(rt.arg(1, &mut []), Err(FillError::NotPresent))
}

// With an argument the program says how it is used, and reads nothing.
fn main(rt: HostRuntime) {
    if has_argument(&rt) {
        let _ = rt.eprintln(
            "usage: runscript < SCRIPT\nIt takes no arguments: the script is standard input, and the replies are standard output.",
        );
        return;
    }
    if let Err(failure) = run(&rt) {
        let _ = eprintln!(rt; "runscript: {failure}");
    }
}
