// Why a paper does not pass.
ghost use Rattle.std.specs.Prelude.{◌≡◌};
ghost use Rattle.judge.specs.declared.fault.JudgeFault.TheVariants.{Reading};
ghost use Rattle.judge.specs.Refusals.{judge_refusal};

use text::fault::{Fault, Refusal};

#[derive(Clone, Copy, Debug, PartialEq, Eq)]
pub enum JudgeFault {
    // The paper's text is not in order.
    Reading(Fault),
    // The lent memory has fewer sums than the sheet has unknowns.
    MemoryTooShort,
    // The lowest unknown of the place whose sum is not scale times what the goal multiplies it by.
    Misses { place: u32, unknown: u32 },
    // The right sides of the place do not add up to less than scale times the ceiling.
    NotBelow { place: u32 },
}

impl From<Fault> for JudgeFault {
    ghost from_gives = { λ f r. r ≡ Reading f };

    fn from(fault: Fault) -> JudgeFault {
        JudgeFault::Reading(fault)
    }
}

impl From<JudgeFault> for Refusal {
    ghost from_gives = { λ f r. r ≡ judge_refusal f };

    fn from(fault: JudgeFault) -> Refusal {
        let (number, first, second) = match fault {
            JudgeFault::Reading(fault) => return fault.into(),
            JudgeFault::MemoryTooShort => (8, 0, 0),
            JudgeFault::Misses { place, unknown } => (6, place, unknown),
            JudgeFault::NotBelow { place } => (7, place, 0),
        };
        Refusal {
            number,
            first,
            second,
        }
    }
}

impl JudgeFault {
    // The number and the two values by which it is told.
    pub fn refusal(self) -> Refusal
        ensures { result ≡ judge_refusal self }
    {
        self.into()
    }
}
