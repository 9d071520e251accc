// Checks the lines of a paper before any of them is weighed.
ghost use Rattle.std.specs.Prelude.{◌≡◌};
ghost use Rattle.judge.specs.Papers.{Checking, check_lines, entry_step, row_there, weight_of};

use crate::entry::Entry;
use crate::line::entry_of;
use sheet::sheet::Sheet;
use text::fault::Fault;
use text::line::Line;
use text::lines::{LineSink, Lines, read_lines};

// Refuses a place that the sheet does not have, and a row that the place does not have.
fn expect_row<S: Sheet>(sheet: &S, entry: Entry, line: u32) -> Result<(), Fault>
    ensures { result ≡ row_there (S.Sheet.meaning sheet.now).places (S.Sheet.meaning sheet.now).rows line (weight_of entry) }
{
    if !(1..=sheet.places()).contains(&entry.place) {
        return Err(Fault::NamesNothing { line, word: 1 });
    }
    if !(1..=sheet.rows(entry.place)).contains(&entry.row) {
        return Err(Fault::NamesNothing { line, word: 2 });
    }
    Ok(())
}

// The place of the last line, 0 before the first, and how many lines there were.
#[derive(Clone, Copy)]
pub struct LineCheck<'a, S> {
    pub sheet: &'a S,
    pub place: u32,
    pub lines: u32,
}

impl<'a, S: Sheet> LineSink for LineCheck<'a, S> {
    ghost model = { Checking };

    ghost view = { λ c. record { places = (S.Sheet.meaning c.sheet.now).places; rows = (S.Sheet.meaning c.sheet.now).rows; place = c.place; lines = c.lines } };

    ghost step = { entry_step };

    fn take_line(&mut self, line: Line) -> Result<(), Fault> {
        let entry = entry_of(line)?;
        let line = line.number;
        if entry.place < self.place {
            return Err(Fault::FallingPlace { line });
        }
        if self.lines >= 4096 {
            return Err(Fault::TooMany { line });
        }
        expect_row(self.sheet, entry, line)?;
        self.place = entry.place;
        self.lines += 1;
        Ok(())
    }
}

// Checks all lines of a text.
pub fn check_lines<S: Sheet>(sheet: &S, lines: Lines) -> Result<(), Fault>
    ensures { result ≡ check_lines (S.Sheet.meaning sheet.now).places (S.Sheet.meaning sheet.now).rows lines.entry.first lines.entry.text.now }
{
    let mut check = LineCheck {
        sheet,
        place: 0,
        lines: 0,
    };
    read_lines(&mut check, lines)?;
    Ok(())
}
