// The parts of a chain.
ghost use Rattle.std.specs.Prelude.{◌≡◌, ◌≤◌, length, take, MatchOption};
ghost use Rattle.chain.specs.Views.{relays_of, streams_of};

use crate::part::Part;
use chain::chain::Chain;
use chain::stream::{Relay, Stream};

impl<'a> Part<'a> {
    // The part that leads to a relay of the chain.
    pub fn to(chain: &'a Chain, relay: u32) -> Part<'a>
        requires low { 1 ≤ relay }
        requires high { relay ≤ length (relays_of chain.now) }
        ensures chain { result.chain.now ≡ chain.now }
        ensures last { result.last ≡ relay }
    {
        Part { chain, last: relay }
    }

    // The whole chain: the part that leads to its last relay.
    pub fn whole(chain: &'a Chain) -> Part<'a>
        ensures chain { result.chain.now ≡ chain.now }
        ensures last { result.last ≡ length (relays_of chain.now) }
    {
        Part::to(chain, chain.relays().len() as u32)
    }

    // The part that leads to a relay, if there is such a relay.
    pub fn until(chain: &'a Chain, relay: u32) -> Option<Part<'a>>
        ensures { MatchOption result ((1 ≤ relay) → (relay ≤ length (relays_of chain.now)) → ⊥) (λ part. (part.chain.now ≡ chain.now) × (part.last ≡ relay)) }
    {
        if !(1..=chain.relays().len() as u32).contains(&relay) {
            return None;
        }
        Some(Part::to(chain, relay))
    }

    pub fn last(&self) -> u32
        ensures value { result ≡ self.now.last }
        ensures some { 1 ≤ result }
        ensures few { result ≤ 8 }
    {
        self.last
    }

    // The relays of the part.
    pub fn relays(&self) -> &'a [Relay]
        ensures value { result.now ≡ take self.now.last (relays_of self.now.chain.now) }
        ensures few { length result.now ≤ 8 }
    {
        &self.chain.relays()[..self.last as usize]
    }

    // The streams of the whole chain.
    pub fn streams(&self) -> &'a [Stream]
        ensures value { result.now ≡ streams_of self.now.chain.now }
        ensures few { length result.now ≤ 16 }
    {
        self.chain.streams()
    }
}
