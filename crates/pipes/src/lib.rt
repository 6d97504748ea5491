// Reading and writing streams that may be non-blocking, as a pipe is that another program made so: a call that would block is tried again
// after a nap. The naps grow while nothing moves, so that waiting takes little of the processor. Assumes nothing.
#![tactic(auto)]

ghost use Rattle.std.specs.Prelude.{◌≡◌, take, IfOk, OnOk, OnErr};
ghost use Rattle.std.specs.Io.{ReadsAtMost};
ghost use Rattle.std.specs.Io.KnownBytes.{Keeps, Appends, Consumes};

use std::io::{Error, ErrorKind, Read, Write};
use std::rt::Clock;
use std::time::Duration;
use std::{io, thread};

// The first nap and the longest, in nanoseconds.
const SHORTEST: u32 = 20_000;

const LONGEST: u32 = 5_000_000;

// Waits so many nanoseconds. (Clock and pause are no struct: a handle, and a number that changes with each try.)
fn nap(clock: &impl Clock, nanos: u32) {
    thread::sleep(clock, Duration::from_nanos(u64::from(nanos)));
}

// The nap that follows one of so many nanoseconds: twice as long, up to the longest.
fn longer(pause: u32) -> u32 {
    if pause < LONGEST / 2 {
        pause * 2
    } else {
        LONGEST
    }
}

// Naps, and returns how long the next nap is to be.
fn napped(clock: &impl Clock, pause: u32) -> u32 {
    nap(clock, pause);
    longer(pause)
}

// What the error of a call asks for. Returns how long the next nap is to be where the call is to be tried again: at once where a signal
// interrupted it, after a nap where it would block. Where it is not, the error is the call's.
fn retry(clock: &impl Clock, error: Error, pause: u32) -> io::Result<u32> {
    match error.kind() {
        ErrorKind::Interrupted => Ok(pause),
        ErrorKind::WouldBlock => Ok(napped(clock, pause)),
        _ => Err(error),
    }
}

// How long the next nap is to be after a write that took so many bytes: short again where it took any, and where it took none it is tried
// again after a nap.
fn after_write(clock: &impl Clock, put: usize, pause: u32) -> u32 {
    if put > 0 {
        SHORTEST
    } else {
        napped(clock, pause)
    }
}

// A proved loop has to end, and nothing says that the wait does. So the tries are counted, up to a number that no run uses up.
fn gave_up() -> Error {
    Error::from(ErrorKind::TimedOut)
}

// One read, tried again while it would block or a signal interrupts it. Returns what the read does: how many bytes it put at the start of
// buf, 0 at the end of the input; or why it failed, and then it has taken none of the input.
pub fn read<C: Clock, R: Read>(clock: &C, from: &mut R, buf: &mut [u8]) -> io::Result<usize>
    ensures bound { ReadsAtMost result buf.new }
    ensures ok { IfOk result (λ n. Consumes (R.remaining from.old) (R.remaining from.new) (take n buf.new)) }
    ensures err { OnErr result (Keeps (R.remaining from.old) (R.remaining from.new)) }
{
    let mut pause = SHORTEST;
    for _ in 0..u64::MAX {
        match from.read(buf) {
            Ok(n) => return Ok(n),
            Err(error) => pause = retry(clock, error, pause)?,
        }
    }
    Err(gave_up())
}

// Writes all of buf, in as many writes as it takes; on an empty buf it makes no call.
pub fn write_all<C: Clock, W: Write>(clock: &C, to: &mut W, buf: &[u8]) -> io::Result<()>
    ensures { OnOk result (Appends (W.contents to.old) (W.contents to.new) buf.now) }
{
    let mut rest = buf;
    let mut pause = SHORTEST;
    for _ in 0..u64::MAX {
        if rest.is_empty() {
            return Ok(());
        }
        match to.write(rest) {
            Ok(put) => {
                rest = &rest[put..];
                pause = after_write(clock, put, pause);
            }
            Err(error) => pause = retry(clock, error, pause)?,
        }
    }
    Err(gave_up())
}
