// What a line of values says.
use crate::line::{ArrivalLine, ServiceLine};

// A relay's number and a line of its curve, at a line of the text.
#[derive(Clone, Copy)]
pub struct RelayRow {
    pub at: u32,
    pub number: u32,
    pub line: ServiceLine,
}

// A stream's number, the ends of its stretch and a line of its curve, at a line of the text.
#[derive(Clone, Copy)]
pub struct StreamRow {
    pub at: u32,
    pub number: u32,
    pub from: u32,
    pub to: u32,
    pub line: ArrivalLine,
}
