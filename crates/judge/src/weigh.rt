// Weighs the lines of one place after another: the weighted rows are added up and held against the goal.
ghost use Rattle.std.specs.Prelude.{◌≡◌, ℕ, ◌+◌, ◌*◌, ◌^◌, ◌≤◌, length, unsigned_abs};
ghost use Rattle.std.specs.List.{AllByRecursion};
ghost use Rattle.sheet.specs.Kind.{Limits};
ghost use Rattle.text.specs.Continue.{KeptOk};
ghost use Rattle.judge.specs.Outcomes.{OnlyReading, place_verdict, Shown};

use crate::entry::Entry;
use crate::fault::JudgeFault;
use crate::line::entry_of;
use crate::lines::PaperLines;
use crate::stated::Stated;
use crate::sums::{add_row, clear, find_miss, scaled};
use sheet::row::Row;
use sheet::sheet::Sheet;
use text::fault::Fault;

// A sheet and how many places it has, the sums of one of them after another, in memory that the caller lends, and a place for a row.
#[derive(Drop)]
pub struct Weighing<'a, S: Sheet> {
    pub sheet: &'a S,
    pub places: u32,
    row: Row,
    pub sums: &'a mut [i64],
    ghost room: { length sums.now ≡ (S.Sheet.meaning sheet.now).unknowns },
    ghost counted: { places ≡ (S.Sheet.meaning sheet.now).places },
    ghost limits: { Limits (S.Sheet.meaning sheet.now) },
}

impl<'a, S: Sheet> Weighing<'a, S> {
    ghost use Rattle.judge.specs.Weighings.{Continues};

    // Memory with one sum for each unknown of the sheet.
    pub fn new(sheet: &'a S, sums: &'a mut [i64]) -> Weighing<'a, S>
        requires { length sums.old ≡ (S.Sheet.meaning sheet.now).unknowns }
        ensures sheet { result.sheet.now ≡ sheet.now }
        ensures lent { result.sums.ghost_name ≡ sums.entry.ghost_name }
        ensures held { result.sums.now ≡ sums.old }
    {
        Weighing {
            sheet,
            places: sheet.places(),
            row: Row::blank(),
            sums,
        }
    }

    // Adds the row of a line, so many times, to the sums, and answers so many times its right side.
    #[tactic(auto, using(crate::proofs::Ints::abs_times))]
    fn add_entry(&mut self, entry: Entry, line: u32) -> Result<i64, Fault>
        requires small { AllByRecursion (λ z. unsigned_abs z ≤ 2 ^ 62) self.old.sums.now }
        ensures same { Continues self.old self.new }
        ensures right { KeptOk (λ z. unsigned_abs z ≤ 2 ^ 44) result }
        ensures bound { KeptOk (λ _. (b : ℕ) → AllByRecursion (λ z. unsigned_abs z ≤ b) self.old.sums.now → AllByRecursion (λ z. unsigned_abs z ≤ b + 34 * 2 ^ 40) self.new.sums.now) result }
    {
        if !self.sheet.row(entry.place, entry.row, &mut self.row) {
            return Err(Fault::NamesNothing { line, word: 2 });
        }
        add_row(&self.row, entry.times, self.sums);
        Ok(scaled(entry.times, self.row.right))
    }

    // Clears the sums, adds the lines of a place to them, and answers the sum of the right sides and the lines that are left.
    pub fn weigh_place<'b>(
        &mut self,
        place: u32,
        body: PaperLines<'b>,
    ) -> Result<(i64, PaperLines<'b>), JudgeFault>
        ensures same { Continues self.old self.new }
        ensures later { KeptOk (λ p. p.1.lines.first + length p.1.lines.text.now ≤ body.entry.lines.first + length body.entry.lines.text.now) result }
        ensures reading { OnlyReading result }
    {
        clear(self.sums);
        let mut right = 0;
        let mut rest = body.lines;
        while let Some((line, after)) = rest.split_first() {
            let entry = entry_of(line)?;
            if entry.place != place {
                break;
            }
            right += self.add_entry(entry, line.number)?;
            rest = after;
        }
        Ok((right, PaperLines { lines: rest }))
    }

    // Holds the sums of a place against the goal, and the sum of its right sides against the ceiling.
    fn verdict_of(&self, stated: Stated, place: u32, right: i64) -> Result<(), JudgeFault>
        ensures { result ≡ place_verdict (S.Sheet.meaning self.now.sheet.now) stated.scale stated.claim place right self.now.sums.now }
    {
        if let Some(unknown) = find_miss(self.sheet, stated.scale, self.sums) {
            return Err(JudgeFault::Misses { place, unknown });
        }
        let ceiling = self.sheet.ceiling(stated.claim);
        let top = scaled(stated.scale, i64::from(ceiling));
        if right < top {
            Ok(())
        } else {
            Err(JudgeFault::NotBelow { place })
        }
    }

    // Judges one place, and answers the lines that are left. The sums stay as this place has them.
    pub fn judge_place<'b>(
        &mut self,
        stated: Stated,
        place: u32,
        body: PaperLines<'b>,
    ) -> Result<PaperLines<'b>, JudgeFault>
        ensures same { Continues self.old self.new }
        ensures later { KeptOk (λ p. p.lines.first + length p.lines.text.now ≤ body.entry.lines.first + length body.entry.lines.text.now) result }
        ensures shown { Shown (S.Sheet.meaning self.old.sheet.now) stated.scale self.new.sums.now result }
    {
        let (right, rest) = self.weigh_place(place, body)?;
        self.verdict_of(stated, place, right)?;
        Ok(rest)
    }
}
