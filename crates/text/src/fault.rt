// What a text gets wrong, and the three numbers by which that is told.
ghost use Rattle.std.specs.Prelude.{◌≡◌};
ghost use Rattle.text.specs.Refusals.{refusal_of};

// What a text gets wrong, with the line, from 1, and the word where it is.
#[derive(Clone, Copy, Debug, PartialEq, Eq)]
pub enum Fault {
    // The line has another number of words.
    WordCount { line: u32 },
    // The last line lacks its byte 10.
    LineEnd { line: u32 },
    // The text lacks something at its end.
    EndsEarly { line: u32 },
    // Not the name or the kind of word that stands there.
    WrongWord { line: u32, word: u32 },
    // A burst, rate, hold, claim, scale or times.
    OutOfLimits { line: u32, word: u32 },
    // A relay or stream number that is neither the last one nor the next.
    WrongNumber { line: u32 },
    WrongStretch { line: u32 },
    FallingPlace { line: u32 },
    // Stream names with no relay before them.
    NoRelay { line: u32 },
    NoStream { line: u32 },
    // Relays, streams or lines.
    TooMany { line: u32 },
    // A text over 65,536 bytes.
    TooLong,
    // An at, place or row.
    NamesNothing { line: u32, word: u32 },
}

// A fault as it is told: the number of its kind and two values.
#[derive(Clone, Copy, Debug, PartialEq, Eq)]
pub struct Refusal {
    pub number: u32,
    pub first: u32,
    pub second: u32,
}

// The numbers stay numbers, since they are what the texts say.
impl From<Fault> for Refusal {
    ghost from_gives = { λ f r. r ≡ refusal_of f };

    fn from(fault: Fault) -> Refusal {
        let (number, first, second) = match fault {
            Fault::WordCount { line } | Fault::LineEnd { line } | Fault::EndsEarly { line } => (
                1, line, 0,
            ),
            Fault::WrongWord { line, word } => (1, line, word),
            Fault::OutOfLimits { line, word } => (2, line, word),
            Fault::WrongNumber { line } | Fault::FallingPlace { line } => (3, line, 1),
            Fault::WrongStretch { line } => (3, line, 2),
            Fault::NoRelay { line } | Fault::NoStream { line } => (3, line, 0),
            Fault::TooMany { line } => (4, line, 0),
            Fault::TooLong => (4, 0, 0),
            Fault::NamesNothing { line, word } => (5, line, word),
        };
        Refusal {
            number,
            first,
            second,
        }
    }
}

impl Fault {
    // The number and the two values by which it is told.
    pub fn refusal(self) -> Refusal
        ensures { result ≡ refusal_of self }
    {
        self.into()
    }
}
