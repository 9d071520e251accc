// Which curve covers which: each old line has a new one that binds no less.
ghost use Rattle.std.specs.Prelude.{◌≡◌, Bool};
ghost use Rattle.chain.specs.Covers.{arrival_covers, service_covers, some_covers, each_covered, cover_both};

use crate::line::{ArrivalLine, ServiceLine};

// Which of two lines binds no less: a line of a new curve that keeps what a line of the old one promised.
pub trait CurveLine: Copy {
    ghost covering: { Self → Self → Bool };

    fn covers(&self, old: &Self) -> bool
        ensures { result ≡ covering self.now old.now };
}

impl CurveLine for ArrivalLine {
    ghost covering = { arrival_covers };

    fn covers(&self, old: &ArrivalLine) -> bool {
        self.burst <= old.burst && self.rate <= old.rate
    }
}

impl CurveLine for ServiceLine {
    ghost covering = { service_covers };

    fn covers(&self, old: &ServiceLine) -> bool {
        old.rate <= self.rate && self.hold <= old.hold
    }
}

fn some_covers<L: CurveLine>(new: &[L], old: &L) -> bool
    ensures { result ≡ some_covers L.CurveLine.covering new.now old.now }
{
    new.iter().any(|line| line.covers(old))
}

// Whether a curve of the lines `new` covers one of the lines `old`.
pub fn covers_curve<L: CurveLine>(new: &[L], old: &[L]) -> bool
    ensures { result ≡ each_covered L.CurveLine.covering new.now old.now }
{
    old.iter().all(|line| some_covers(new, line))
}

// Whether two curves are the same, that is, cover each other.
pub fn same_curve<L: CurveLine>(a: &[L], b: &[L]) -> bool
    ensures { result ≡ cover_both L.CurveLine.covering a.now b.now }
{
    covers_curve(a, b) && covers_curve(b, a)
}
