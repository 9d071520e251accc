// Reads the first two lines of a paper, and judges the rest.
ghost use Rattle.std.specs.Prelude.{◌≡◌, true, length};
ghost use Rattle.chain.specs.Views.{relays_of};
ghost use Rattle.text.specs.Continue.{KeptOk, ok_as};
ghost use Rattle.book.specs.Goals.{goal_names, goal_at, claim_in, claim_plan, goal_line, goal_plan, goal_row, read_paper};
ghost use Rattle.book.specs.Judgings.{kind_of, ByKind, AimTold};
ghost use Rattle.book.specs.Places.{is_place_of};

use crate::aim::Aim;
use crate::goal::Goal;
use crate::target::Target;
use chain::chain::Chain;
use judge::fault::JudgeFault;
use judge::judge::judge;
use judge::lines::PaperLines;
use judge::stated::Stated;
use sheet::backlog::BacklogSheet;
use sheet::delay::DelaySheet;
use text::fault::Fault;
use text::line::Line;
use text::lines::Lines;

// The names above the goal line.
fn goal_names(line: Line) -> Result<(), Fault>
    ensures { result ≡ goal_names line.entry.number line.entry.bytes.now }
{
    line.expect_names(&["goal", "at", "claim", "scale"])
}

// The goal line of a paper, below its names, and the lines after it.
fn goal_row<'a>(paper: &'a [u8]) -> Result<(Line<'a>, PaperLines<'a>), Fault>
    ensures parts { ok_as (λ p. (p.0.bytes.now, p.1.lines.text.now)) result ≡ goal_row paper.now }
    ensures numbers { KeptOk (λ p. (p.0.number ≡ 2) × (p.1.lines.first ≡ 3)) result }
{
    let (names, after) = Lines::new(paper)?.expect_first()?;
    goal_names(names)?;
    let (line, lines) = after.expect_first()?;
    Ok((line, PaperLines { lines }))
}

fn goal_at(line: Line) -> Result<Goal, Fault>
    ensures { result ≡ goal_at line.entry.number line.entry.bytes.now }
{
    if line.begins_with(Goal::Delay.word()) {
        return Ok(Goal::Delay);
    }
    line.name_at(1, Goal::Backlog.word())?;
    Ok(Goal::Backlog)
}

// Each limit stands where it is stated.
fn claim_in(line: u32, claim: u32, scale: u32) -> Result<Stated, Fault>
    ensures { ok_as claim_plan result ≡ claim_in line claim scale }
{
    if !(1..=16_777_216).contains(&claim) {
        return Err(Fault::OutOfLimits { line, word: 3 });
    }
    if !(1..=1_048_576).contains(&scale) {
        return Err(Fault::OutOfLimits { line, word: 4 });
    }
    Ok(Stated { claim, scale })
}

// The goal line of a paper for a chain.
fn goal_line(chain: &Chain, line: Line) -> Result<Aim, Fault>
    ensures line { ok_as goal_plan result ≡ goal_line (length (relays_of chain.now)) line.entry.number line.entry.bytes.now }
    ensures there { KeptOk (λ a. is_place_of (length (relays_of chain.now)) a.target.goal a.target.at ≡ true) result }
{
    line.expect_words(4)?;
    let goal = goal_at(line)?;
    let at = line.number_at(2)?;
    let claim = line.number_at(3)?;
    let scale = line.number_at(4)?;
    let stated = claim_in(line.number, claim, scale)?;
    let target = Target::find(chain, goal, at).ok_or(Fault::NamesNothing {
        line: line.number,
        word: 2,
    })?;
    Ok(Aim { target, stated })
}

// Judges lines by the sheet of an aim that the chain has. Each goal has its own type of sheet.
fn judge_aim(chain: &Chain, aim: Aim, body: PaperLines, sums: &mut [i64]) -> Result<(), JudgeFault>
    requires { is_place_of (length (relays_of chain.now)) aim.target.goal aim.target.at ≡ true }
    ensures { ByKind (kind_of chain.now aim.target.goal aim.target.at) aim.stated.scale body.entry.lines.first body.entry.lines.text.now result sums.old sums.new }
{
    match aim.target.goal {
        Goal::Delay => judge(&DelaySheet::new(chain), aim.stated, body, sums),
        Goal::Backlog => {
            let sheet = BacklogSheet::at(chain, aim.target.at);
            judge(&sheet, aim.stated, body, sums)
        }
    }
}

// Judges a paper by the sheet that its goal line names, and answers what it is about.
pub fn judge_paper(chain: &Chain, paper: &[u8], sums: &mut [i64]) -> Result<Aim, JudgeFault>
    ensures { AimTold chain.now (read_paper (length (relays_of chain.now)) paper.now) result sums.old sums.new }
{
    let (line, body) = goal_row(paper)?;
    let aim = goal_line(chain, line)?;
    judge_aim(chain, aim, body, sums)?;
    Ok(aim)
}
