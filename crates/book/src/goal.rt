// What a claim is about.
ghost use Rattle.std.specs.Prelude.{◌≡◌};
ghost use Rattle.book.specs.Places.{goal_word};

// The delay of stop bytes, at 0, or the backlog of a relay, at its number.
#[derive(Clone, Copy, Debug, PartialEq, Eq)]
pub enum Goal {
    Delay,
    Backlog,
}

impl Goal {
    // Its word in papers and quotes.
    pub(crate) fn word(self) -> &'static [u8]
        ensures { result.now ≡ goal_word self }
    {
        match self {
            Goal::Delay => b"delay",
            Goal::Backlog => b"backlog",
        }
    }
}
