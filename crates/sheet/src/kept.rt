// One stream of a part.
ghost use Rattle.std.specs.Prelude.{◌≤◌};
ghost use Rattle.chain.specs.Shape.{next};

use chain::curve::ArrivalCurve;
use chain::stretch::Stretch;

pub mod pair;
pub mod rows;
pub mod unknowns;

// Its stretch, cut after the last relay of the part, its curve, and how many unknowns stand before its own.
#[derive(Clone, Copy)]
pub struct Kept<'a> {
    pub stretch: Stretch,
    pub curve: &'a ArrivalCurve,
    pub offset: u32,
    ghost after_dates: { next stretch.to ≤ offset },
    ghost few: { offset ≤ 320 },
}
