// The numbers of a stream's unknowns: its in values along the stretch, then its out values.
ghost use Rattle.std.specs.Prelude.{◌≡◌, ◌+◌, ◌≤◌};
ghost use Rattle.chain.specs.Shape.{hops, node};
ghost use Rattle.sheet.specs.Ends.{kept_end};

use crate::kept::Kept;

impl Kept<'_> {
    // How many relays it crosses.
    pub fn hops(&self) -> u32
        ensures value { result ≡ hops self.now.stretch }
        ensures some { 1 ≤ result }
        ensures few { result ≤ 8 }
    {
        self.stretch.hops()
    }

    // The date of the node at a position: its relay's number, as dates come first.
    pub fn date_at(&self, position: u32) -> u32
        requires { position ≤ hops self.now.stretch }
        ensures value { result ≡ node self.now.stretch position }
        ensures low { 1 ≤ result }
        ensures high { result ≤ self.now.offset }
    {
        self.stretch.node(position)
    }

    // What has entered by the date of the node at a position.
    pub fn in_at(&self, position: u32) -> u32
        requires { position ≤ hops self.now.stretch }
        ensures value { result ≡ self.now.offset + 1 + position }
        ensures within { result ≤ kept_end self.now }
    {
        self.offset + 1 + position
    }

    // What has left the node at a position by its date; after the last relay, what has left that one.
    pub fn out_at(&self, position: u32) -> u32
        requires { position ≤ hops self.now.stretch }
        ensures value { result ≡ self.now.offset + 1 + hops self.now.stretch + 1 + position }
        ensures within { result ≤ kept_end self.now }
    {
        self.offset + 1 + self.hops() + 1 + position
    }
}
