// What makes the line program fail, and how it says so.
ghost use Rattle.std.specs.Prelude.{◌≤◌, length};

use calls::Refusal;
use std::io::{Error, ErrorKind, Write};
use std::str;

// What ends the program before every answer is out.
#[derive(Debug, Drop)]
pub(crate) enum Failure {
    Input(Error),
    Output(Error),
    Damaged,
}

// An arena that is not well formed.
impl From<Refusal> for Failure {
    fn from(_: Refusal) -> Failure {
        Failure::Damaged
    }
}

// More bytes than std writes for an error.
const MOST: usize = 320;

// Writes what std says of the error at the start of the room, and returns how many bytes that takes.
fn spell(error: &Error, room: &mut [u8]) -> usize
    ensures { result ≤ length room.new }
{
    let all = room.len();
    let mut rest = room;
    let _ = write!(rest, "{error}");
    all.saturating_sub(rest.len())
}

// The system's words for the error alone: std puts its number behind them, as in `Is a directory (os error 21)`.
fn without_number(said: &str) -> &str {
    match said.split_once(" (os error ") {
        Some((words, _)) => words,
        None => said,
    }
}

// Says what a call that failed was about, and why; but a reader that has gone away ends the program quietly.
fn call_failed(rt: &impl Eprint, name: &str, what: &str, error: &Error) {
    if error.kind() == ErrorKind::BrokenPipe {
        return;
    }
    let mut room = [0u8; MOST];
    let n = spell(error, &mut room);
    let said = str::from_utf8(&room[..n]).unwrap_or("");
    let words = without_number(said);
    let _ = rt.eprintln(format_args!("{name}: {what}: {words}"));
}

// Says what failed, in a line after the program's name.
pub(crate) fn failed(rt: &impl Eprint, name: &str, failure: &Failure) {
    match failure {
        Failure::Input(error) => call_failed(rt, name, "standard input", error),
        Failure::Output(error) => call_failed(rt, name, "standard output", error),
        Failure::Damaged => {
            let _ = rt.eprintln(format_args!("{name}: the arena is damaged"));
        }
    }
}
