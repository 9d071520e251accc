// The sheet that bounds the delay of the stop stream.
ghost use Rattle.std.specs.Prelude.{◌≡◌, ◌+◌, ◌≤◌, length};
ghost use Rattle.chain.specs.Shape.{hops, next};
ghost use Rattle.chain.specs.Views.{relays_of};
ghost use Rattle.sheet.specs.Kinds.{delay_rows};
ghost use Rattle.sheet.specs.Parts.{part_rows, part_unknowns, values};

use crate::kept::Kept;
use crate::part::Part;

pub mod answer;
pub mod rows;

// Over the whole chain. After its unknowns stand a tick and what has entered of the stop stream by then. Unknowns, the rows of the
// chain and all rows are counted once.
#[derive(Clone, Copy)]
pub struct DelaySheet<'a> {
    part: Part<'a>,
    stop: Kept<'a>,
    unknowns: u32,
    base: u32,
    rows: u32,
    ghost whole: { part.last ≡ length (relays_of part.chain.now) },
    ghost spans: { hops stop.stretch ≡ part.last },
    ghost first: { stop.offset ≡ next part.last },
    ghost reaches: { stop.offset + values stop.stretch ≤ unknowns },
    ghost counted: { unknowns ≡ part_unknowns part.chain.now part.last },
    ghost few: { unknowns ≤ 297 },
    ghost based: { base ≡ part_rows part.chain.now part.last },
    ghost all_rows: { rows ≡ delay_rows part.chain.now },
    ghost few_rows: { rows ≤ 4096 },
}
