// What waits at the last relay of a part at the last date.
ghost use Rattle.std.specs.Prelude.{◌≡◌, ◌≤◌, length};
ghost use Rattle.chain.specs.Shape.{next};
ghost use Rattle.sheet.specs.Kinds.{wait_of, waiting};

use crate::part::streams::{PartStream, PartStreams};
use chain::stream::Stream;

impl PartStream<'_> {
    // What it multiplies an unknown by: what has entered by the date after the last relay counts, less what has left that relay, if it
    // crosses it.
    fn wait_of(&self, unknown: u32) -> Option<i64>
        ensures { result ≡ wait_of self.now.last self.now.offset self.now.stream.now.stretch unknown }
    {
        self.stream.stretch.position(self.last)?;
        let kept = self.keep()?;
        let end = kept.hops();
        if unknown == kept.in_at(end) {
            Some(1)
        } else if unknown == kept.out_at(end) {
            Some(-1)
        } else {
            None
        }
    }
}

// What all streams together multiply an unknown by.
pub fn goal_at(streams: &[Stream], relay: u32, unknown: u32) -> i64
    requires some { length streams.now ≤ 16 }
    requires short { relay ≤ 8 }
    ensures { result ≡ waiting relay (next relay) streams.now unknown }
{
    // A loop, since of `find_map` it stayed open what it answers.
    for stream in PartStreams::new(streams, relay) {
        if let Some(times) = stream.wait_of(unknown) {
            return times;
        }
    }
    0
}
