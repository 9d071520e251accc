// The rows that the delay sheet adds at each place.
ghost use Rattle.std.specs.Prelude.{◌≡◌, ◌+◌, ◌*◌, ◌≤◌, unsigned_abs};
ghost use Rattle.chain.specs.Shape.{hops};
ghost use Rattle.sheet.specs.Ends.{delay_end};
ghost use Rattle.sheet.specs.Rows.{Fits, Written};

use crate::delay::DelaySheet;
use crate::row::Row;
use chain::line::ArrivalLine;

// A row for each node of a stretch of so many relays and each of so many lines.
pub fn node_rows(relays: u32, lines: u32) -> u32
    requires short { relays ≤ 8 }
    requires plain { lines ≤ 4 }
    ensures { result ≡ (relays + 1) * lines }
{
    (relays + 1) * lines
}

impl DelaySheet<'_> {
    // The number of the tick.
    pub fn tick(&self) -> u32
        ensures { result ≡ self.now.unknowns + 1 }
    {
        self.unknowns + 1
    }

    // The number of what has entered of the stop stream by the tick.
    pub fn volume(&self) -> u32
        ensures { result ≡ self.now.unknowns + 2 }
    {
        self.unknowns + 2
    }

    // The last byte that entered by the tick has not left by the last date.
    fn write_late(&self, out: &mut Row)
        ensures { Fits (delay_end self.now) out.new }
    {
        out.start(-1);
        out.plus(self.stop.out_at(self.stop.hops()), 1);
        out.minus(self.volume(), 1);
    }

    // No more enters between the date of a node and the tick than the line allows; `sign` is 1 where the node comes first, else -1.
    fn write_around(&self, position: u32, sign: i64, line: &ArrivalLine, out: &mut Row)
        requires within { position ≤ hops self.now.stop.stretch }
        requires unit { unsigned_abs sign ≡ 1 }
        ensures { Fits (delay_end self.now) out.new }
    {
        let rate = sign * i64::from(line.rate);
        out.start(i64::from(line.burst));
        out.put(self.stop.date_at(position), rate);
        out.put(self.stop.in_at(position), -sign);
        out.put(self.tick(), -rate);
        out.put(self.volume(), sign);
    }

    // The row at an index, from 0, among those of the curve: by the node, then by the line. Nodes up to the place come before the tick.
    fn curve_row(&self, place: u32, index: u32, out: &mut Row) -> Option<()>
        ensures { Written (delay_end self.now) out.old out.new result }
    {
        let (position, line) = self.stop.by_line(index);
        if self.stop.hops() < position {
            return None;
        }
        let sign = if position < place { 1 } else { -1 };
        self.write_around(position, sign, line, out);
        Some(())
    }

    // The row at an index, from 0, after those of the chain: the tick and what has entered by then lie between the dates around the place.
    pub fn place_row(&self, place: u32, index: u32, out: &mut Row) -> Option<()>
        requires low { 1 ≤ place }
        requires high { place ≤ hops self.now.stop.stretch }
        ensures { Written (delay_end self.now) out.old out.new result }
    {
        // Each number has a row of its own kind, so a match and no table.
        match index {
            0 => out.rises(self.stop.date_at(place - 1), self.tick()),
            1 => out.falls(self.stop.date_at(place), self.tick()),
            2 => out.rises(self.stop.in_at(place - 1), self.volume()),
            3 => out.falls(self.stop.in_at(place), self.volume()),
            4 => self.write_late(out),
            _ => self.curve_row(place, index - 5, out)?,
        }
        Some(())
    }
}
