// The sheet that bounds the backlog of one relay.
ghost use Rattle.std.specs.Prelude.{◌≡◌, ◌≤◌};
ghost use Rattle.sheet.specs.Parts.{part_rows};

use crate::part::Part;

pub mod answer;
pub mod waiting;

// Over the part of the chain that leads to the relay; its rows are counted once.
#[derive(Clone, Copy)]
pub struct BacklogSheet<'a> {
    part: Part<'a>,
    rows: u32,
    ghost all_rows: { rows ≡ part_rows part.chain.now part.last },
    ghost few_rows: { rows ≤ 4096 },
}
