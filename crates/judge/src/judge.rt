// Judges a paper's lines, place by place.
ghost use Rattle.std.specs.Prelude.{◌≡◌, ◌+◌, ◌≤◌, length, drop};
ghost use Rattle.text.specs.Continue.{KeptOk, ok_as};
ghost use Rattle.judge.specs.Outcomes.{Judged, Shown};
ghost use Rattle.judge.specs.Papers.{bytes_of, check_paper};

use crate::check::check_lines;
use crate::fault::JudgeFault;
use crate::line::entry_names;
use crate::lines::PaperLines;
use crate::stated::Stated;
use crate::weigh::Weighing;
use sheet::sheet::Sheet;

// The lines after the line of names, once all are in order and `room` sums are enough.
fn check_paper<'a, S: Sheet>(
    sheet: &S,
    body: PaperLines<'a>,
    room: usize,
) -> Result<PaperLines<'a>, JudgeFault>
    ensures lines { ok_as bytes_of result ≡ check_paper (S.Sheet.meaning sheet.now) room body.entry.lines.first body.entry.lines.text.now }
    ensures later { KeptOk (λ p. p.lines.first + length p.lines.text.now ≤ body.entry.lines.first + length body.entry.lines.text.now) result }
{
    let (names, rest) = body.lines.expect_first()?;
    entry_names(names)?;
    check_lines(sheet, rest)?;
    if room < sheet.unknowns() as usize {
        return Err(JudgeFault::MemoryTooShort);
    }
    Ok(PaperLines { lines: rest })
}

// Judges every place in turn, up to the first that is refused, with one sum for each unknown.
fn judge_places<S: Sheet>(
    sheet: &S,
    stated: Stated,
    body: PaperLines,
    sums: &mut [i64],
) -> Result<(), JudgeFault>
    requires { length sums.old ≡ (S.Sheet.meaning sheet.now).unknowns }
    ensures { Shown (S.Sheet.meaning sheet.now) stated.scale sums.new result }
{
    let mut weighing = Weighing::new(sheet, sums);
    let mut rest = body;
    for place in 1..=weighing.places {
        rest = weighing.judge_place(stated, place, rest)?;
    }
    Ok(())
}

// Judges the text that begins with a paper's line of names. The sums of the last place that was judged stand at the front of `sums`,
// and the rest of it stays as it was: all of it where nothing was judged.
pub fn judge<S: Sheet>(
    sheet: &S,
    stated: Stated,
    body: PaperLines,
    sums: &mut [i64],
) -> Result<(), JudgeFault>
    ensures rest { drop (S.Sheet.meaning sheet.now).unknowns sums.new ≡ drop (S.Sheet.meaning sheet.now).unknowns sums.old }
    ensures judged { Judged (S.Sheet.meaning sheet.now) stated.scale (check_paper (S.Sheet.meaning sheet.now) (length sums.old) body.entry.lines.first body.entry.lines.text.now) result sums.old sums.new }
{
    let lines = check_paper(sheet, body, sums.len())?;
    let unknowns = sheet.unknowns() as usize;
    judge_places(sheet, stated, lines, &mut sums[..unknowns])
}
