// What the backlog sheet answers.
ghost use Rattle.std.specs.Prelude.{◌≡◌, ◌≤◌, length, MatchOption};
ghost use Rattle.chain.specs.Views.{relays_of};
ghost use Rattle.sheet.specs.Kinds.{backlog_kind};

use crate::backlog::BacklogSheet;
use crate::backlog::waiting::goal_at;
use crate::part::Part;
use crate::row::Row;
use crate::sheet::Sheet;
use chain::chain::Chain;

impl<'a> BacklogSheet<'a> {
    // The sheet over a part, of the relay that it leads to.
    fn over(part: Part<'a>) -> BacklogSheet<'a>
        ensures { result.part ≡ part.entry }
    {
        BacklogSheet {
            part,
            rows: part.rows(),
        }
    }

    // The sheet of a relay of the chain.
    pub fn at(chain: &'a Chain, relay: u32) -> BacklogSheet<'a>
        requires low { 1 ≤ relay }
        requires high { relay ≤ length (relays_of chain.now) }
        ensures chain { result.part.chain.now ≡ chain.now }
        ensures relay { result.part.last ≡ relay }
    {
        BacklogSheet::over(Part::to(chain, relay))
    }

    // The sheet of a relay, if there is such a relay.
    pub fn new(chain: &'a Chain, relay: u32) -> Option<BacklogSheet<'a>>
        ensures { MatchOption result ((1 ≤ relay) → (relay ≤ length (relays_of chain.now)) → ⊥) (λ sheet. (sheet.part.chain.now ≡ chain.now) × (sheet.part.last ≡ relay)) }
    {
        let part = Part::until(chain, relay)?;
        Some(BacklogSheet::over(part))
    }
}

impl Sheet for BacklogSheet<'_> {
    ghost meaning = { λ s. backlog_kind s.part.chain.now s.part.last };

    #[tactic(auto, using(crate::specs::SheetLimits::backlog_limits))]
    fn places(&self) -> u32 {
        1
    }

    fn unknowns(&self) -> u32 {
        self.part.unknowns()
    }

    fn rows(&self, place: u32) -> u32 {
        if place == 1 { self.rows } else { 0 }
    }

    fn row(&self, place: u32, row: u32, out: &mut Row) -> bool {
        if place != 1 || row < 1 {
            return false;
        }
        self.part.row(row - 1, out).is_some()
    }

    fn goal(&self, unknown: u32) -> i64 {
        goal_at(self.part.streams(), self.part.last(), unknown)
    }

    fn ceiling(&self, claim: u32) -> u32 {
        claim + 1
    }
}
