// What every kind of sheet answers.
ghost use Rattle.std.specs.Prelude.{◌≡◌, ◌≤◌, true, false};
ghost use Rattle.sheet.specs.Kind.{Kind, Limits};
ghost use Rattle.sheet.specs.Rows.{Fits};

use crate::row::Row;

// A linear program for each of its places, with the same unknowns and goal at each. Places, rows and unknowns count from 1.
pub trait Sheet {
    ghost meaning: { Self → Kind };

    fn places(&self) -> u32
        ensures count { result ≡ (meaning self.now).places }
        ensures limits { Limits (meaning self.now) };

    fn unknowns(&self) -> u32
        ensures { result ≡ (meaning self.now).unknowns };

    // How many rows there are at a place.
    fn rows(&self, place: u32) -> u32
        ensures { result ≡ (meaning self.now).rows place };

    // Writes the row into `out`; false where there is none, and `out` is then as it was. A plain flag, by a rule of the project.
    fn row(&self, place: u32, row: u32, out: &mut Row) -> bool
        ensures wrote { result ≡ true → Fits (meaning self.now).unknowns out.new }
        ensures kept { result ≡ false → out.new ≡ out.old };

    // What the goal multiplies an unknown by; 0 for any that it does not name.
    fn goal(&self, unknown: u32) -> i64
        ensures { result ≡ (meaning self.now).goal unknown };

    // A paper that shows a claim has to stay below this: the claim or one more.
    fn ceiling(&self, claim: u32) -> u32
        requires { claim ≤ 16777216 }
        ensures { result ≡ (meaning self.now).ceiling claim };
}
