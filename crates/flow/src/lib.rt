// A stream of lines: what the line program writes for pieces of its input, and what it has to remember from one piece to the next. `feed`
// and `finish` assume nothing.
#![tactic(auto)]

ghost use Rattle.std.specs.Prelude.{List, [], ◌∷◌, ◌≡◌, ℕ, ◌+◌, ◌<◌, ◌≤◌, length};
ghost use Rattle.std.proofs.Math.Option.{some};
ghost use Rattle.rules.specs.Command as rules;
ghost use Rattle.rules.specs.Edition.{edition};
ghost use Rattle.rules.specs.Perform.{State};
ghost use Rattle.rules.specs.Arena.{WellFormed};
ghost use Rattle.rules.specs.Lines.{line_command};
ghost use Rattle.heads.specs.Did.{Formed};
ghost use Rattle.line.specs.Read.{meant};
ghost use Rattle.flow.specs.Stream.{no_line, longer, so_far, line_size, feeding, Feeds, closing, front, between, Answered, Stepped};

use commands::{Code, Command, Refusal, command};
use digits::Digits;
use formed::check;
use line::{NEWLINE, Request, answer_bytes, command_bytes, read_with, write_answer};
use node::Key;

// The bytes of a line that is not ended, of which the longest command has 32. A line of more bytes than a command has is bad whatever it
// holds, so that it is too long, len one more than a command's, is all that is kept of it. (A caller keeps it, copies it and may give any:
// `longer` and `so_far` speak of bytes and len.)
#[derive(Clone, Copy, Debug, PartialEq, Eq)]
pub struct Pending {
    pub bytes: [u8; 32],
    pub len: usize,
}

// What a call did: how many bytes of its input it took, how many it wrote, and the line that is not ended now.
#[derive(Clone, Copy, Debug, PartialEq, Eq)]
pub struct Fed {
    pub pending: Pending,
    pub read: usize,
    pub written: usize,
}

// No byte of a line yet.
pub fn no_line() -> Pending
    ensures { result ≡ no_line }
{
    Pending {
        bytes: [0u8; 32],
        len: 0,
    }
}

// The line with one byte more.
fn longer<K: Key>(pending: Pending, b: u8) -> Pending
    ensures { result ≡ longer (edition K.WORDS) pending b }
{
    let most = command_bytes::<K>();
    let len = pending.len;
    let mut bytes = pending.bytes;
    if len < most {
        bytes[len] = b;
        return Pending {
            bytes,
            len: len + 1,
        };
    }
    Pending {
        bytes,
        len: most + 1,
    }
}

// What the line says, now that it has ended.
fn said<K: Key>(digits: &Digits, pending: Pending) -> Option<Request<K>>
    ensures { meant K.number result ≡ line_command (edition K.WORDS) (so_far pending) }
{
    let most = command_bytes::<K>();
    if pending.len != most {
        return None;
    }
    let bytes = pending.bytes;
    read_with(digits, &bytes[..most])
}

// Does a command, and writes the answer's line. (Here and below: arena, output and place are no struct, and the room for an answer is a
// clause, for the reason that `Inside` gives.)
fn obey<K: Key>(a: &mut [u32], asked: Request<K>, out: &mut [u8], at: usize)
    requires { Formed K.WORDS a.old × (at + line_size (edition K.WORDS) ≤ length out.old) }
    ensures { (line : List ℕ) (st : State ℕ) →
        line_command (edition K.WORDS) line ≡ some (rules.command asked.number (K.number asked.key) asked.value) →
        WellFormed (edition K.WORDS) a.old st →
        Answered (edition K.WORDS) line st a.old out.old at a.new out.new }
{
    let r = command(a, Command::numbered(asked.number, asked.key, asked.value));
    write_answer(out, at, u32::from(r.code), r.key, r.value, r.count);
}

// Does what the line asks for, and writes the answer's line.
fn answer<K: Key>(digits: &Digits, a: &mut [u32], pending: Pending, out: &mut [u8], at: usize)
    requires { Formed K.WORDS a.old × (at + line_size (edition K.WORDS) ≤ length out.old) }
    ensures { (st : State ℕ) → WellFormed (edition K.WORDS) a.old st →
        Answered (edition K.WORDS) (so_far pending) st a.old out.old at a.new out.new }
{
    match said::<K>(digits, pending) {
        Some(asked) => obey(a, asked, out, at),
        None => write_answer(out, at, u32::from(Code::BadLine), K::zero(), 0, 0),
    }
}

// One byte of the input: a newline ends the line.
fn step<K: Key>(digits: &Digits, a: &mut [u32], fed: Fed, b: u8, out: &mut [u8]) -> Fed
    requires formed { Formed K.WORDS a.old }
    requires room { (fed.written + line_size (edition K.WORDS) ≤ length out.old) × (fed.read + 1 < 18446744073709551616) }
    ensures { (st : State ℕ) → WellFormed (edition K.WORDS) a.old st →
        Stepped (edition K.WORDS) st a.old fed (b ∷ []) out.old a.new out.new result }
{
    let pending = fed.pending;
    let at = fed.written;
    if b == NEWLINE {
        answer::<K>(digits, a, pending, out, at);
        return Fed {
            pending: no_line(),
            read: fed.read + 1,
            written: at + answer_bytes::<K>(),
        };
    }
    Fed {
        pending: longer::<K>(pending, b),
        read: fed.read + 1,
        written: at,
    }
}

// The command of a line that stands whole at the front of the bytes, with its newline.
fn front<K: Key>(digits: &Digits, bytes: &[u8]) -> Option<Request<K>>
    ensures { meant K.number result ≡ front (edition K.WORDS) bytes.now }
{
    let end = command_bytes::<K>();
    if bytes.len() <= end {
        return None;
    }
    if bytes[end] != NEWLINE {
        return None;
    }
    read_with(digits, &bytes[..end])
}

// The commands that stand whole in what is left of the input, as long as there is room for an answer. Whatever comes after them is left:
// this only goes faster than byte by byte. (Not a `for`: a turn takes a line and gives an answer, and the end of either may stop it.)
fn whole_lines<K: Key>(
    digits: &Digits,
    a: &mut [u32],
    fed: Fed,
    input: &[u8],
    out: &mut [u8],
) -> Fed
    requires formed { Formed K.WORDS a.old × (fed.pending ≡ no_line) }
    requires room { (fed.read ≤ length input.now) × (fed.written ≤ length out.old) }
    ensures { (st : State ℕ) → WellFormed (edition K.WORDS) a.old st →
        Stepped (edition K.WORDS) st a.old fed (between fed.read result.read input.now)
        out.old a.new out.new result }
{
    let line = command_bytes::<K>() + 1;
    let room = answer_bytes::<K>();
    let mut read = fed.read;
    let mut written = fed.written;
    while written + room <= out.len() {
        let Some(asked) = front::<K>(digits, &input[read..]) else {
            break;
        };
        obey(a, asked, out, written);
        read += line;
        written += room;
    }
    Fed {
        pending: no_line(),
        read,
        written,
    }
}

// One byte of the input, and after a newline the lines that stand whole.
fn advance<K: Key>(digits: &Digits, a: &mut [u32], fed: Fed, input: &[u8], out: &mut [u8]) -> Fed
    requires formed { Formed K.WORDS a.old }
    requires room { (fed.read < length input.now) × (fed.written + line_size (edition K.WORDS) ≤ length out.old) }
    ensures onward { fed.read < result.read }
    ensures stepped { (st : State ℕ) → WellFormed (edition K.WORDS) a.old st →
        Stepped (edition K.WORDS) st a.old fed (between fed.read result.read input.now)
        out.old a.new out.new result }
{
    let at = fed.read;
    let b = input[at];
    let next = step::<K>(digits, a, fed, b, out);
    if b == NEWLINE {
        return whole_lines::<K>(digits, a, next, input, out);
    }
    next
}

// The bytes of the input, as long as there is room for an answer. (Not a `for`: a turn takes as many bytes as it can.)
fn serve<K: Key>(a: &mut [u32], pending: Pending, input: &[u8], out: &mut [u8]) -> Fed
    requires { Formed K.WORDS a.old }
    ensures { (st : State ℕ) → WellFormed (edition K.WORDS) a.old st →
        record { returned = result; arena = a.new; out = out.new }
        ≡ feeding (edition K.WORDS) pending input.now out.old a.old st }
{
    let digits = Digits::new();
    let room = answer_bytes::<K>();
    let mut fed = Fed {
        pending,
        read: 0,
        written: 0,
    };
    while fed.read < input.len() && fed.written + room <= out.len() {
        fed = advance::<K>(&digits, a, fed, input, out);
    }
    fed
}

// Takes bytes of the input as long as out has room for one more answer, and answers each line that ends in them.
pub fn feed<K: Key>(
    a: &mut [u32],
    pending: Pending,
    input: &[u8],
    out: &mut [u8],
) -> Result<Fed, Refusal>
    ensures { Feeds (edition K.WORDS) pending input.now out.old a.old
        (record { returned = result; arena = a.new; out = out.new }) }
{
    if !check::<K>(a) {
        return Err(Refusal::Damaged);
    }
    Ok(serve::<K>(a, pending, input, out))
}

// The input has ended: a line without its newline is answered as if it had come. After a last newline no line follows.
#[tactic(auto, unfolding(crate::specs::Stream::closing))]
pub fn finish<K: Key>(a: &mut [u32], pending: Pending, out: &mut [u8]) -> Result<Fed, Refusal>
    ensures { Feeds (edition K.WORDS) pending (closing pending) out.old a.old
        (record { returned = result; arena = a.new; out = out.new }) }
{
    let newline = [NEWLINE];
    if pending.len == 0 {
        return feed::<K>(a, pending, &newline[..0], out);
    }
    feed::<K>(a, pending, &newline, out)
}
