// The stop stream of a chain.
ghost use Rattle.std.specs.Prelude.{◌≡◌, ◌+◌, ◌≤◌, length};
ghost use Rattle.chain.specs.Shape.{hops, next};
ghost use Rattle.chain.specs.Curves.{lines_of};
ghost use Rattle.chain.specs.Views.{relays_of, streams_of};
ghost use Rattle.sheet.specs.Kinds.{stop_lines};
ghost use Rattle.sheet.specs.Parts.{part_unknowns, values};

use crate::kept::Kept;
use chain::chain::Chain;
use chain::shape::next_relay;

// The first stream, which runs over the whole chain; its unknowns come right after the dates.
pub fn stop_stream<'a>(chain: &'a Chain) -> Kept<'a>
    ensures offset { result.offset ≡ next (length (relays_of chain.now)) }
    ensures spans { hops result.stretch ≡ length (relays_of chain.now) }
    ensures lines { length (lines_of result.curve.now) ≡ stop_lines (streams_of chain.now) }
    ensures reaches { result.offset + values result.stretch ≤ part_unknowns chain.now (length (relays_of chain.now)) }
{
    let stream = &chain.streams()[0];
    let offset = next_relay(chain.relays().len() as u32);
    Kept {
        stretch: stream.stretch,
        curve: &stream.curve,
        offset,
    }
}
