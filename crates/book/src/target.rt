// What a claim is about.
ghost use Rattle.std.specs.Prelude.{◌≡◌, true, length, is_some, IfSome};
ghost use Rattle.chain.specs.Views.{relays_of};
ghost use Rattle.book.specs.Places.{is_place, is_place_of};

use crate::goal::Goal;
use chain::chain::Chain;

// A goal and the number that it is at.
#[derive(Clone, Copy)]
pub struct Target {
    pub goal: Goal,
    pub at: u32,
    ghost place: { is_place goal at ≡ true },
}

impl Target {
    // A goal at a number, if the chain has it.
    pub fn find(chain: &Chain, goal: Goal, at: u32) -> Option<Target>
        ensures there { is_some result ≡ is_place_of (length (relays_of chain.now)) goal at }
        ensures named { IfSome result (λ t. (t.goal ≡ goal) × (t.at ≡ at)) }
    {
        match goal {
            Goal::Delay if at == 0 => Some(Target { goal, at }),
            Goal::Backlog if (1..=chain.relays().len() as u32).contains(&at) => Some(Target {
                goal,
                at,
            }),
            _ => None,
        }
    }
}
