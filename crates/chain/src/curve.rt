// Curves: one to four lines each.
ghost use Rattle.std.specs.Prelude.{◌≡◌, ◌≤◌, ◌<◌, ◌↔◌, [], ◌∷◌, ◌++◌, length, IsOk, OnOk, OnErr};
ghost use Rattle.few.specs.Values.{items};

use crate::line::{ArrivalLine, ServiceLine};
use few::{Few, Full};
use std::alloc::AllocError;

#[derive(Copy)]
pub struct Curve<L> {
    lines: Few<L, 4>,
    ghost some: { 1 ≤ length (items lines) },
    // The limit of the table, said of its list, where proofs look for it.
    ghost few: { length (items lines) ≤ 4 },
}

// What may enter: the least of burst + rate × d over its lines (an arrival curve).
pub type ArrivalCurve = Curve<ArrivalLine>;

// What leaves a relay that works: the greatest of rate × d − hold over its lines (a strict service curve).
pub type ServiceCurve = Curve<ServiceLine>;

// By hand, since a derived `Clone` of a generic struct with a ghost field is refused.
impl<L: Copy> Clone for Curve<L> {
    fn clone(&self) -> Result<Curve<L>, AllocError> {
        Ok(*self)
    }
}

impl<L: Copy> Curve<L> {
    ghost use Rattle.chain.specs.Curves.{lines_of};

    // A curve of one line.
    pub fn single(line: L) -> Curve<L>
        ensures { lines_of result ≡ line ∷ [] }
    {
        Curve {
            lines: Few::one(line),
        }
    }

    pub fn lines(&self) -> &[L]
        ensures value { result.now ≡ lines_of self.now }
        ensures some { 1 ≤ length result.now }
        ensures few { length result.now ≤ 4 }
    {
        self.lines.as_slice()
    }

    // One line more, unless four stand.
    pub fn add(&mut self, line: L) -> Result<(), Full>
        ensures told { IsOk result ↔ (length (lines_of self.old) < 4) }
        ensures ok { OnOk result (lines_of self.new ≡ lines_of self.old ++ line ∷ []) }
        ensures err { OnErr result (self.new ≡ self.old) }
    {
        self.lines.try_push(line)
    }
}
