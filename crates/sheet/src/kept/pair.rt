// The pairs of nodes on a stretch, and the rows that a stream's curve gives for them.
ghost use Rattle.std.specs.Prelude.{◌<◌, ◌≤◌, IfSome};
ghost use Rattle.chain.specs.Shape.{hops};
ghost use Rattle.sheet.specs.Ends.{kept_end};
ghost use Rattle.sheet.specs.Rows.{Fits, Written};

use crate::kept::Kept;
use crate::row::Row;
use chain::line::ArrivalLine;

// Two positions on a stretch.
#[derive(Clone, Copy)]
pub struct Pair {
    pub first: u32,
    pub second: u32,
}

// The pair at an index, from 0, on a stretch of so many relays: by the first position, then by the second.
fn find_pair(relays: u32, index: u32) -> Option<Pair>
    requires { relays ≤ 8 }
    ensures { IfSome result (λ pair. (pair.first < pair.second) × (pair.second ≤ relays)) }
{
    // Of a first position, the pairs are as many as the nodes after it, and are passed over at once.
    (0..relays)
        .try_fold(index, |left, first| {
            left.checked_sub(relays - first).ok_or_else(|| Pair {
                first,
                second: first + 1 + left,
            })
        })
        .err()
}

impl Kept<'_> {
    // No more enters between the dates of two nodes than the line allows.
    fn write_pair(&self, pair: Pair, line: &ArrivalLine, out: &mut Row)
        requires rises { pair.first < pair.second }
        requires within { pair.second ≤ hops self.now.stretch }
        ensures { Fits (kept_end self.now) out.new }
    {
        out.start(i64::from(line.burst));
        out.plus(self.date_at(pair.first), line.rate);
        out.minus(self.date_at(pair.second), line.rate);
        out.minus(self.in_at(pair.first), 1);
        out.plus(self.in_at(pair.second), 1);
    }

    // The row at an index, from 0, among those of pairs: by the pair, then by the line.
    pub fn pair_row(&self, index: u32, out: &mut Row) -> Option<()>
        ensures { Written (kept_end self.now) out.old out.new result }
    {
        let (group, line) = self.by_line(index);
        let pair = find_pair(self.hops(), group)?;
        self.write_pair(pair, line, out);
        Some(())
    }
}
