// The line program over pieces of its input.
ghost use Rattle.rules.specs.Edition.{edition};
ghost use Rattle.flow.specs.Stream.{Feeds, closing};

pub use flow::{Fed, Pending, no_line};
use heads::Refusal;
use node::Key;

// Takes bytes of the input as long as out has room for one more answer, and answers each line that ends in them. An arena that is not well
// formed is refused.
pub fn feed<K: Key>(
    a: &mut [u32],
    pending: Pending,
    input: &[u8],
    out: &mut [u8],
) -> Result<Fed, Refusal>
    ensures { Feeds (edition K.WORDS) pending input.now out.old a.old
        (record { returned = result; arena = a.new; out = out.new }) }
{
    flow::feed::<K>(a, pending, input, out)
}

// The input has ended: a line without its newline is answered as if it had come. After a last newline no line follows.
pub fn finish<K: Key>(a: &mut [u32], pending: Pending, out: &mut [u8]) -> Result<Fed, Refusal>
    ensures { Feeds (edition K.WORDS) pending (closing pending) out.old a.old
        (record { returned = result; arena = a.new; out = out.new }) }
{
    flow::finish::<K>(a, pending, out)
}
