// What a verdict is about.
ghost use Rattle.std.specs.Prelude.{◌≡◌};

use crate::goal::Goal;
use crate::verdict::Verdict;

impl Verdict {
    pub fn goal(&self) -> Goal
        ensures { result ≡ self.now.target.goal }
    {
        self.target.goal
    }

    pub fn at(&self) -> u32
        ensures { result ≡ self.now.target.at }
    {
        self.target.at
    }

    pub fn claim(&self) -> u32
        ensures { result ≡ self.now.claim }
    {
        self.claim
    }

    // How many edits the book had when it was judged.
    pub fn edits(&self) -> u32
        ensures { result ≡ self.now.edits }
    {
        self.edits
    }
}
