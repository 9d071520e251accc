// A chain while its text is read: plain tables, since memory is asked for only once the whole text was found in order.
ghost use Rattle.std.specs.Prelude.{◌≡◌, ◌+◌, ◌≤◌, IfOk};
ghost use Rattle.chain.specs.Drafts.{place_of};

use crate::curve::Curve;
use text::fault::Fault;

pub mod relays;
pub mod streams;

pub use relays::RelayDraft;
pub use streams::StreamDraft;

// What was read last: nothing, the relay names or a relay, the stream names or a stream.
#[derive(Clone, Copy)]
pub enum Draft {
    Empty,
    Relays(RelayDraft),
    Streams(StreamDraft),
}

// The place, from 0, of the value with a number, which has to be that of the last of so many values or of the next one.
fn place_of(number: u32, count: usize, at: u32) -> Result<usize, Fault>
    requires { count ≤ 16 }
    ensures value { result ≡ place_of number count at }
    ensures place { IfOk result (λ k. (k ≤ count) × (number ≡ k + 1)) }
{
    let number = number as usize;
    if number < 1 || (number != count && number != count + 1) {
        return Err(Fault::WrongNumber { line: at });
    }
    Ok(number - 1)
}

impl<L: Copy> Curve<L> {
    ghost use Rattle.text.specs.Continue.{ok_as};
    ghost use Rattle.chain.specs.Curves.{lines_of};
    ghost use Rattle.chain.specs.Drafts.{longer};

    // With one line more, which a line of the text states.
    fn with(mut self, line: u32, added: L) -> Result<Curve<L>, Fault>
        ensures { ok_as lines_of result ≡ longer (lines_of self) line added }
    {
        self.add(added).map_err(|_| Fault::TooMany { line })?;
        Ok(self)
    }
}
