// One row of a sheet.
ghost use Rattle.std.specs.Prelude.{◌≤◌, length};
ghost use Rattle.few.specs.Values.{items};

use few::Few;

pub mod write;

// One unknown, by its number from 1, and what it is multiplied by.
#[derive(Clone, Copy)]
pub struct Term {
    pub unknown: u32,
    pub times: i64,
}

// The sum of times × unknown is at most `right`. The terms stand by rising unknown, none with times 0.
#[derive(Clone, Copy)]
pub struct Row {
    terms: Few<Term, 34>,
    pub right: i64,
    ghost few: { length (items terms) ≤ 34 },
}
