// What the delay sheet answers.
ghost use Rattle.std.specs.Prelude.{◌≡◌};
ghost use Rattle.sheet.specs.Kinds.{delay_kind};

use crate::delay::DelaySheet;
use crate::delay::rows::node_rows;
use crate::part::Part;
use crate::part::stop::stop_stream;
use crate::row::Row;
use crate::sheet::Sheet;
use chain::chain::Chain;
use chain::shape::next_relay;

impl<'a> DelaySheet<'a> {
    pub fn new(chain: &'a Chain) -> DelaySheet<'a>
        ensures { result.part.chain.now ≡ chain.now }
    {
        let part = Part::whole(chain);
        let stop = stop_stream(chain);
        let base = part.rows();
        let rows = base + 5 + node_rows(stop.hops(), stop.curve.lines().len() as u32);
        DelaySheet {
            part,
            stop,
            unknowns: part.unknowns(),
            base,
            rows,
        }
    }
}

impl Sheet for DelaySheet<'_> {
    ghost meaning = { λ s. delay_kind s.part.chain.now };

    #[tactic(auto, using(crate::specs::SheetLimits::delay_limits))]
    fn places(&self) -> u32 {
        self.stop.hops()
    }

    fn unknowns(&self) -> u32 {
        self.volume()
    }

    fn rows(&self, place: u32) -> u32 {
        if (1..=self.stop.hops()).contains(&place) {
            self.rows
        } else {
            0
        }
    }

    fn row(&self, place: u32, row: u32, out: &mut Row) -> bool {
        if !(1..=self.stop.hops()).contains(&place) || row < 1 {
            return false;
        }
        if row <= self.base {
            return self.part.row(row - 1, out).is_some();
        }
        self.place_row(place, row - self.base - 1, out).is_some()
    }

    fn goal(&self, unknown: u32) -> i64 {
        if unknown == next_relay(self.part.last()) {
            1
        } else if unknown == self.tick() {
            -1
        } else {
            0
        }
    }

    fn ceiling(&self, claim: u32) -> u32 {
        claim
    }
}
