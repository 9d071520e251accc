// Writing and reading a row.
ghost use Rattle.std.specs.Prelude.{◌≡◌, ℕ, ◌+◌, ◌<◌, ◌≤◌, [], ◌++◌, length, pos, negsuc, neg_ℤ, unsigned_abs};
ghost use Rattle.sheet.specs.Rows.{Adds, Fits, term_of, terms_of};

use crate::row::{Row, Term};
use few::Few;

impl Row {
    // A row without terms: 0 is at most 0.
    pub fn blank() -> Row
        ensures terms { terms_of result ≡ [] }
        ensures right { result.right ≡ pos 0 }
    {
        Row {
            terms: Few::none(Term {
                unknown: 0,
                times: 0,
            }),
            right: 0,
        }
    }

    // Begins the row anew, with no term yet.
    pub fn start(&mut self, right: i64)
        ensures terms { terms_of self.new ≡ [] }
        ensures right { self.new.right ≡ right }
        ensures fits { unsigned_abs right ≤ 16777216 → (n : ℕ) → Fits n self.new }
    {
        self.terms.clear();
        self.right = right;
    }

    // One term more; none if it is 0 times its unknown.
    pub fn put(&mut self, unknown: u32, times: i64)
        requires { length (terms_of self.old) < 34 }
        ensures { Adds self.old self.new unknown times }
    {
        if times == 0 {
            return;
        }
        self.terms.push(Term { unknown, times });
    }

    // `plus` and `minus`, `rises` and `falls`: terms are written in the order of the unknowns, so the name says which side one is on.
    pub fn plus(&mut self, unknown: u32, times: u32)
        requires { length (terms_of self.old) < 34 }
        ensures { Adds self.old self.new unknown (pos times) }
    {
        self.put(unknown, i64::from(times));
    }

    pub fn minus(&mut self, unknown: u32, times: u32)
        requires { length (terms_of self.old) < 34 }
        ensures { Adds self.old self.new unknown (neg_ℤ (pos times)) }
    {
        self.put(unknown, -i64::from(times));
    }

    // That `first` is at most `second`, which has the higher number.
    pub fn rises(&mut self, first: u32, second: u32)
        ensures terms { terms_of self.new ≡ term_of first (pos 1) ++ term_of second (negsuc 0) }
        ensures right { self.new.right ≡ pos 0 }
        ensures fits { (n : ℕ) → 1 ≤ first → first ≤ n → 1 ≤ second → second ≤ n → Fits n self.new }
    {
        self.start(0);
        self.plus(first, 1);
        self.minus(second, 1);
    }

    // That `second`, which has the higher number, is at most `first`.
    pub fn falls(&mut self, first: u32, second: u32)
        ensures terms { terms_of self.new ≡ term_of first (negsuc 0) ++ term_of second (pos 1) }
        ensures right { self.new.right ≡ pos 0 }
        ensures fits { (n : ℕ) → 1 ≤ first → first ≤ n → 1 ≤ second → second ≤ n → Fits n self.new }
    {
        self.start(0);
        self.minus(first, 1);
        self.plus(second, 1);
    }

    pub fn terms(&self) -> &[Term]
        ensures value { result.now ≡ terms_of self.now }
        ensures few { length result.now ≤ 34 }
    {
        self.terms.as_slice()
    }
}
