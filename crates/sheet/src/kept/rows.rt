// The rows of one stream.
ghost use Rattle.std.specs.Prelude.{◌≡◌, ◌/◌, ◌%◌, length, slice_get};
ghost use Rattle.chain.specs.Curves.{lines_of};
ghost use Rattle.sheet.specs.Ends.{kept_end};
ghost use Rattle.sheet.specs.Rows.{Written};

use crate::kept::Kept;
use crate::row::Row;
use chain::line::ArrivalLine;

impl<'a> Kept<'a> {
    // Where the rows of a group differ by the line of the curve: the group of the row at an index, from 0, and its line.
    pub fn by_line(&self, index: u32) -> (u32, &'a ArrivalLine)
        ensures group { result.0 ≡ index / length (lines_of self.now.curve.now) }
        ensures line { slice_get (lines_of self.now.curve.now) (index % length (lines_of self.now.curve.now)) ≡ Some result.1.now }
    {
        let lines = self.curve.lines();
        let count = lines.len() as u32;
        (index / count, &lines[(index % count) as usize])
    }

    // The row at an index, from 0: at the first node in is at most out; at each, out is at most in; then the later ones.
    pub fn row(&self, index: u32, out: &mut Row) -> Option<()>
        ensures { Written (kept_end self.now) out.old out.new result }
    {
        if index == 0 {
            out.rises(self.in_at(0), self.out_at(0));
            return Some(());
        }
        let hops = self.hops();
        let position = index - 1;
        if position <= hops {
            out.falls(self.in_at(position), self.out_at(position));
            return Some(());
        }
        self.later_row(position - hops - 1, out)
    }

    // The row at an index, from 0, among those that say that neither value falls, and of the pairs.
    fn later_row(&self, index: u32, out: &mut Row) -> Option<()>
        ensures { Written (kept_end self.now) out.old out.new result }
    {
        let hops = self.hops();
        if index < hops {
            out.rises(self.in_at(index), self.in_at(index + 1));
            return Some(());
        }
        let position = index - hops;
        if position < hops {
            out.rises(self.out_at(position), self.out_at(position + 1));
            return Some(());
        }
        self.pair_row(position - hops, out)
    }
}
