// The stretch of relays that a stream runs over.
ghost use Rattle.std.specs.Prelude.{◌≡◌, ◌≤◌};
ghost use Rattle.std.specs.Option.{option_map};

// From one relay to another, counted from 1, in a chain of so many relays (the path of a flow).
#[derive(Clone, Copy, PartialEq, Eq)]
pub struct Stretch {
    pub from: u32,
    pub to: u32,
    pub relays: u32,
    ghost begins: { 1 ≤ from },
    ghost rises: { from ≤ to },
    ghost ends: { to ≤ relays },
    ghost limit: { relays ≤ 8 },
}

impl Stretch {
    ghost use Rattle.chain.specs.Stretches.{stretch_of, ends};

    // The stretch from one relay to another, if there is one in a chain of so many relays.
    pub fn new(from: u32, to: u32, relays: u32) -> Option<Stretch>
        ensures { option_map ends result ≡ stretch_of from to relays }
    {
        if from < 1 || to < from || relays < to || 8 < relays {
            return None;
        }
        Some(Stretch { from, to, relays })
    }
}
