// The lines of a paper, each by itself.
ghost use Rattle.std.specs.Prelude.{◌≡◌};
ghost use Rattle.text.specs.Continue.{ok_as};
ghost use Rattle.judge.specs.Papers.{entry_names, entry_line, weight_of};

use crate::entry::Entry;
use text::fault::Fault;
use text::line::Line;

// The names above the lines.
pub fn entry_names(line: Line) -> Result<(), Fault>
    ensures { result ≡ entry_names line.entry.number line.entry.bytes.now }
{
    line.expect_names(&["place", "row", "times"])
}

// A place, a row of it, and how many times that counts, whose limit stands here, where it is stated.
pub fn entry_of(line: Line) -> Result<Entry, Fault>
    ensures { ok_as weight_of result ≡ entry_line line.entry.number line.entry.bytes.now }
{
    line.expect_words(3)?;
    let place = line.number_at(1)?;
    let row = line.number_at(2)?;
    let times = line.number_at(3)?;
    if !(1..=1_048_576).contains(&times) {
        return Err(Fault::OutOfLimits {
            line: line.number,
            word: 3,
        });
    }
    Ok(Entry { place, row, times })
}
