// How many unknowns and rows a part has.
ghost use Rattle.std.specs.Prelude.{◌≡◌, ◌≤◌, take};
ghost use Rattle.chain.specs.Views.{relays_of, streams_of};
ghost use Rattle.sheet.specs.Parts.{part_rows, part_unknowns, relays_rows, streams_rows, widths};

use crate::part::Part;
use crate::part::cut::{rows_of, width};
use chain::shape::next_relay;

impl Part<'_> {
    fn sum_widths(&self) -> u32
        ensures { result ≡ widths self.now.last (streams_of self.now.chain.now) }
    {
        self.streams()
            .iter()
            .map(|stream| width(&stream.stretch, self.last))
            .sum()
    }

    fn sum_stream_rows(&self) -> u32
        ensures { result ≡ streams_rows self.now.last (streams_of self.now.chain.now) }
    {
        self.streams()
            .iter()
            .map(|stream| rows_of(stream, self.last))
            .sum()
    }

    fn sum_relay_rows(&self) -> u32
        ensures { result ≡ relays_rows (take self.now.last (relays_of self.now.chain.now)) }
    {
        self.relays()
            .iter()
            .map(|relay| relay.curve.lines().len() as u32)
            .sum()
    }

    #[tactic(auto, using(crate::specs::SheetLimits::widths_few))]
    pub fn unknowns(&self) -> u32
        ensures value { result ≡ part_unknowns self.now.chain.now self.now.last }
        ensures few { result ≤ 297 }
    {
        next_relay(self.last) + self.sum_widths()
    }

    #[tactic(auto, using(crate::proofs::Counts::streams_rows_few, crate::proofs::Counts::relays_rows_few))]
    pub fn rows(&self) -> u32
        ensures value { result ≡ part_rows self.now.chain.now self.now.last }
        ensures few { result ≤ 2760 }
    {
        self.last + self.sum_relay_rows() + self.sum_stream_rows()
    }
}
