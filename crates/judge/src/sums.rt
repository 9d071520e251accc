// The sums of the unknowns, in memory that the caller lends: the sum of the unknown k stands at k - 1. What they are multiplied by is
// the times of an entry or the scale of a paper, two types with the same limit, so it is a plain number here.
ghost use Rattle.std.specs.Prelude.{◌≡◌, ℕ, ◌+◌, ◌-◌, ◌*◌, ◌^◌, ◌<◌, ◌≤◌, length, replicate, pos, ◌+ℤ◌, ◌*ℤ◌, slice_index_or, slice_set, unsigned_abs};
ghost use Rattle.std.specs.List.{AllByRecursion};
ghost use Rattle.sheet.specs.Kind.{Limits};
ghost use Rattle.sheet.specs.Rows.{Fine, Fits, terms_of};
ghost use Rattle.judge.specs.Sums.{coefficient, lowest, misses};

use sheet::row::{Row, Term};
use sheet::sheet::Sheet;

pub fn clear(sums: &mut [i64])
    ensures { sums.new ≡ replicate (length sums.old) (pos 0) }
{
    sums.fill(0);
}

#[tactic(auto, using(crate::proofs::Ints::abs_times, crate::proofs::Ints::back_is))]
pub fn scaled(factor: u32, z: i64) -> i64
    requires factor { factor ≤ 1048576 }
    requires number { unsigned_abs z ≤ 2 ^ 25 }
    ensures value { result ≡ pos factor *ℤ z }
    ensures small { unsigned_abs result ≤ 2 ^ 45 }
{
    i64::from(factor) * z
}

// Adds so many times one term to the sum of its unknown.
#[tactic(auto, using(crate::proofs::Ints::abs_plus, crate::proofs::Ints::back_is))]
pub fn add_term(sums: &mut [i64], times: u32, term: Term)
    requires fine { Fine (length sums.old) term }
    requires few { times ≤ 1048576 }
    requires small { unsigned_abs (slice_index_or sums.old (term.unknown - 1) (pos 0)) ≤ 2 ^ 62 + 2 ^ 46 }
    ensures { sums.new ≡ slice_set sums.old (term.unknown - 1) (slice_index_or sums.old (term.unknown - 1) (pos 0) +ℤ pos times *ℤ term.times) }
{
    sums[(term.unknown - 1) as usize] += scaled(times, term.times);
}

// Adds so many times the row to the sums.
pub fn add_row(row: &Row, times: u32, sums: &mut [i64])
    requires fits { Fits (length sums.old) row.now }
    requires few { times ≤ 1048576 }
    requires small { AllByRecursion (λ z. unsigned_abs z ≤ 2 ^ 62) sums.old }
    ensures added { (k : ℕ) → k < length sums.old → slice_index_or sums.new k (pos 0) ≡ slice_index_or sums.old k (pos 0) +ℤ pos times *ℤ coefficient (terms_of row.now) (k + 1) }
    ensures bound { (b : ℕ) → AllByRecursion (λ z. unsigned_abs z ≤ b) sums.old → AllByRecursion (λ z. unsigned_abs z ≤ b + 34 * 2 ^ 40) sums.new }
{
    for term in row.terms() {
        add_term(sums, times, *term);
    }
}

// The lowest unknown whose sum is not scale times what the goal multiplies it by.
pub fn find_miss<S: Sheet>(sheet: &S, scale: u32, sums: &[i64]) -> Option<u32>
    requires limits { Limits (S.Sheet.meaning sheet.now) }
    requires scale { scale ≤ 1048576 }
    requires room { length sums.now ≡ (S.Sheet.meaning sheet.now).unknowns }
    ensures { result ≡ lowest (misses (S.Sheet.meaning sheet.now).goal scale sums.now) 1 (S.Sheet.meaning sheet.now).unknowns }
{
    // A loop, since of `position` over the sums three goals stayed open.
    for (k, sum) in sums.iter().enumerate() {
        let unknown = k as u32 + 1;
        if *sum != scaled(scale, sheet.goal(unknown)) {
            return Some(unknown);
        }
    }
    None
}
