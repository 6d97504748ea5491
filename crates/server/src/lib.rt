// The line program over its input and its output: commands are read, their answers written, and standard error says what failed, after the
// program's name. The words of the arena may be anything.
#![tactic(auto)]

ghost use Rattle.std.specs.Prelude.{◌≤◌, ◌<◌, length, IfOk};

mod failure;

use calls::{Key, make};
use failure::{Failure, failed};
use flow::{Pending, feed, finish, no_line};
use std::fs::{Metadata, OpenFile};
use std::io::{ErrorKind, Read, Write};
use std::process::ExitCode;
use std::rt::{Clock, Files};
use std::{fs, io};

// The name that the system gives to what standard output is.
const OUTPUT: &str = "/proc/self/fd/1";

// Whether the output is a file, as far as the system tells.
fn is_file(about: io::Result<Metadata>) -> bool {
    match about {
        Ok(about) => about.is_file(),
        Err(_) => false,
    }
}

// Waits until the disk has what was written to the file. A file that no disk stands behind cannot be waited for.
fn written_back<F: OpenFile>(file: &F) -> io::Result<()> {
    match file.sync_data() {
        Err(error) if error.kind() != ErrorKind::InvalidInput => Err(error),
        _ => Ok(()),
    }
}

// The answers are out once a file has them on its disk: what a disk has no room for may show only then. Nothing else is waited for: an
// output that was never open has no answers, and what cannot be opened once more cannot be asked.
fn settle<F: Files>(files: &F) -> Result<(), Failure> {
    if !is_file(fs::metadata(files, OUTPUT)) {
        return Ok(());
    }
    match fs::open(files, OUTPUT) {
        Ok(file) => written_back(&file).map_err(Failure::Output),
        Err(_) => Ok(()),
    }
}

// The program while it runs: its clock and files, where the answers go, the arena, the line that is not ended, and room for answers.
#[derive(Drop)]
struct Session<'a, R, O> {
    rt: &'a R,
    to: &'a mut O,
    arena: &'a mut [u32],
    line: Pending,
    out: [u8; 65536],
}

impl<'a, R: Clock + Files, O: Write> Session<'a, R, O> {
    // Writes so many bytes of answers.
    fn put(&mut self, n: usize) -> Result<(), Failure>
        requires { n ≤ 65536 }
    {
        pipes::write_all(self.rt, self.to, &self.out[..n]).map_err(Failure::Output)
    }

    // Answers the piece as far as the room for the answers goes, and writes them. Returns how many bytes of it were taken: some, since the
    // room is enough for a line. (No contract says that, so a piece of which nothing is taken ends the program.)
    fn take<K: Key>(&mut self, piece: &[u8]) -> Result<usize, Failure>
        ensures some { IfOk result (λ n. 0 < n) }
        ensures within { IfOk result (λ n. n ≤ length piece.now) }
    {
        let fed = feed::<K>(self.arena, self.line, piece, &mut self.out)?;
        if fed.read == 0 {
            return Err(Failure::Damaged);
        }
        self.line = fed.pending;
        self.put(fed.written)?;
        Ok(fed.read)
    }

    // Answers all of what came.
    fn serve<K: Key>(&mut self, piece: &[u8]) -> Result<(), Failure> {
        let mut rest = piece;
        while !rest.is_empty() {
            let taken = self.take::<K>(rest)?;
            rest = &rest[taken..];
        }
        Ok(())
    }

    // The input has ended: the line that is not ended is answered, and the answers are seen out. Where the arena is damaged there is no such
    // line: the first byte that came would have ended the program.
    fn end<K: Key>(&mut self) -> Result<(), Failure> {
        if let Ok(fed) = finish::<K>(self.arena, self.line, &mut self.out) {
            self.put(fed.written)?;
        }
        settle(self.rt)
    }

    // Reads until the input ends, and answers all that a read brought before the next, so that whoever waits for an answer has it. A read
    // that failed is no end: the line that is not ended stays unanswered. A proved loop has to end, and nothing says that the input does.
    // So the reads are counted, up to a number that no run uses up.
    fn run<K: Key, I: Read>(&mut self, from: &mut I) -> Result<(), Failure> {
        let mut buf = [0; 65536];
        for _ in 0..u64::MAX {
            let n = pipes::read(self.rt, from, &mut buf).map_err(Failure::Input)?;
            if n == 0 {
                return self.end::<K>();
            }
            self.serve::<K>(&buf[..n])?;
        }
        Err(Failure::Input(io::Error::from(ErrorKind::TimedOut)))
    }
}

// Makes an arena of so many slots in the lent words, and serves it until the input ends. Where none of that size can be made there, the words
// stay as they were, and what they hold is served.
fn served<K: Key, R: Clock + Files, I: Read, O: Write>(
    rt: &R,
    from: &mut I,
    to: &mut O,
    arena: &mut [u32],
    slots: u32,
) -> Result<(), Failure> {
    let _ = make::<K>(arena, slots);
    let mut session = Session {
        rt,
        to,
        arena,
        line: no_line(),
        out: [0; 65536],
    };
    session.run::<K, I>(from)
}

// The whole program, on an arena of so many slots in the lent words. The status that the process ends with: 0 where the input has ended and
// every answer was taken; 1 where something failed, and standard error says what.
pub fn program<K: Key, R: Clock + Eprint + Files, I: Read, O: Write>(
    rt: &R,
    from: &mut I,
    to: &mut O,
    name: &str,
    a: &mut [u32],
    slots: u32,
) -> ExitCode {
    match served::<K, R, I, O>(rt, from, to, a, slots) {
        Ok(()) => ExitCode::SUCCESS,
        Err(failure) => {
            failed(rt, name, &failure);
            ExitCode::FAILURE
        }
    }
}
