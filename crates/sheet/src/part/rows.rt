// The rows that every sheet of a part begins with.
ghost use Rattle.std.specs.Prelude.{◌≤◌};
ghost use Rattle.sheet.specs.Ends.{part_end};
ghost use Rattle.sheet.specs.Rows.{Fits, Written};

use crate::part::Part;
use crate::part::relays::{RelayLine, find_line};
use crate::row::Row;
use chain::shape::next_relay;

impl Part<'_> {
    // Between its date and the next a relay lets go what its line promises.
    fn write_relay(&self, at: RelayLine, out: &mut Row)
        requires low { 1 ≤ at.relay }
        requires high { at.relay ≤ self.now.last }
        ensures { Fits (part_end self.now) out.new }
    {
        out.start(i64::from(at.line.hold));
        out.minus(at.relay, at.line.rate);
        out.plus(next_relay(at.relay), at.line.rate);
        self.write_crossings(at.relay, out);
    }

    // The row at an index, from 0, among the rows of all streams.
    fn stream_row(&self, index: u32, out: &mut Row) -> Option<()>
        ensures { Written (part_end self.now) out.old out.new result }
    {
        let found = self.find_stream(index)?;
        found.stream.keep()?.row(found.index, out)
    }

    // The row at an index, from 0: the dates never fall, the relays serve, then the rows of the streams.
    pub fn row(&self, index: u32, out: &mut Row) -> Option<()>
        ensures { Written (part_end self.now) out.old out.new result }
    {
        if index < self.last {
            let relay = index + 1;
            out.rises(relay, next_relay(relay));
            return Some(());
        }
        match find_line(self.relays(), index - self.last) {
            Ok(at) => {
                self.write_relay(at, out);
                Some(())
            }
            Err(left) => self.stream_row(left, out),
        }
    }
}
