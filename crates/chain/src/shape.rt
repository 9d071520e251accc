// The order of relays: which comes after which, and the relays of a stretch one after the other.
// Everything that walks relays goes by these.
ghost use Rattle.std.specs.Prelude.{◌≡◌, ◌^◌, ◌<◌, ◌≤◌};
ghost use Rattle.chain.specs.Shape.{next, hops, node, position_of};

use crate::stretch::Stretch;

// The relay after one, or the number past the last.
pub fn next_relay(relay: u32) -> u32
    requires { relay < 2 ^ 31 }
    ensures { result ≡ next relay }
{
    relay + 1
}

impl Stretch {
    // How many relays it has.
    pub fn hops(&self) -> u32
        ensures value { result ≡ hops self.now }
        ensures some { 1 ≤ result }
        ensures few { result ≤ self.now.relays }
    {
        self.to - self.from + 1
    }

    // The relay at a position, from 0; at the number of its relays, what comes after the last.
    pub fn node(&self, position: u32) -> u32
        requires { position ≤ hops self.now }
        ensures value { result ≡ node self.now position }
        ensures low { 1 ≤ result }
        ensures high { result ≤ next self.now.relays }
    {
        self.from + position
    }

    // Where a relay stands in it, if it is one of its relays.
    pub fn position(&self, relay: u32) -> Option<u32>
        ensures { result ≡ position_of self.now relay }
    {
        if !(self.from..=self.to).contains(&relay) {
            return None;
        }
        Some(relay - self.from)
    }
}
