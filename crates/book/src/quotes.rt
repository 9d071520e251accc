// The claims that stand.
ghost use Rattle.std.specs.Prelude.{◌≡◌, length};

pub mod table;

// A claim for the delay and one for each relay, where one was entered.
#[derive(Clone, Copy)]
pub struct Quotes {
    pub(crate) delay: Option<u32>,
    pub(crate) backlog: [Option<u32>; 8],
    ghost all: { length backlog ≡ 8 },
}
