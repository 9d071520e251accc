// The lines of a text one after the other, and reading them into any state.
ghost use Rattle.std.specs.Prelude.{◌≡◌, ℕ, ◌+◌, ◌^◌, ◌<◌, List, length, IfSome, Result as Outcome};
ghost use Rattle.std.specs.Option.{option_map};
ghost use Rattle.text.specs.declared.fault.Fault.{Fault as Wrong};
ghost use Rattle.text.specs.Continue.{KeptOk, ok_as};
ghost use Rattle.text.specs.Lines.{end_of, first_line, held_two, lines_of, read_lines, Took, TookAll};
ghost use Rattle.text.specs.Pieces.{cut_at, pieces};

use crate::cut::cut;
use crate::fault::Fault;
use crate::line::Line;

// The lines of what is left of a text, of which the first has the number `first`.
#[derive(Clone, Copy)]
pub struct Lines<'a> {
    pub text: &'a [u8],
    pub first: u32,
    ghost numbered: { first + length text.now < 2 ^ 32 },
}

impl<'a> Lines<'a> {
    // The lines of a whole text, which has at most 65,536 bytes.
    pub fn new(text: &'a [u8]) -> Result<Lines<'a>, Fault>
        ensures { ok_as (λ ls. (ls.first, ls.text.now)) result ≡ lines_of text.now }
    {
        if text.len() > 65_536 {
            return Err(Fault::TooLong);
        }
        Ok(Lines { text, first: 1 })
    }

    // The first line, of these bytes, and the lines of the text after it.
    fn parted(self, bytes: &'a [u8], text: &'a [u8]) -> (Line<'a>, Lines<'a>)
        requires { length text.now < length self.text.now }
        ensures line { (result.0.bytes.now ≡ bytes.now) × (result.0.number ≡ self.entry.first) }
        ensures rest { (result.1.text.now ≡ text.now) × (result.1.first ≡ self.entry.first + 1) }
    {
        let line = Line {
            bytes,
            number: self.first,
        };
        let rest = Lines {
            text,
            first: self.first + 1,
        };
        (line, rest)
    }

    // The first line that has its byte 10, if there is one, and the lines after it.
    #[tactic(auto, using(crate::proofs::CutLaws::shorter))]
    pub fn split_first(self) -> Option<(Line<'a>, Lines<'a>)>
        ensures bytes { option_map (λ p. (p.0.bytes.now, p.1.text.now)) result ≡ cut_at 10 self.entry.text.now }
        ensures numbers { IfSome result (λ p. (p.0.number ≡ self.entry.first) × (p.1.first ≡ self.entry.first + 1)) }
        ensures shorter { IfSome result (λ p. length p.1.text.now < length self.entry.text.now) }
    {
        let (bytes, text) = cut(self.text, b'\n')?;
        Some(self.parted(bytes, text))
    }

    // The first line, which has to be there and to have its byte 10, and the lines after it.
    pub fn expect_first(self) -> Result<(Line<'a>, Lines<'a>), Fault>
        ensures parts { ok_as (λ p. (p.0.bytes.now, p.1.text.now)) result ≡ first_line self.entry.first self.entry.text.now }
        ensures numbers { KeptOk (λ p. (p.0.number ≡ self.entry.first) × (p.1.first ≡ self.entry.first + 1)) result }
        ensures shorter { KeptOk (λ p. length p.1.text.now < length self.entry.text.now) result }
    {
        let (bytes, text) = first_line(self.text, self.first)?;
        Ok(self.parted(bytes, text))
    }

    // The number of the line that would come now, where no byte is left.
    pub fn expect_end(self) -> Result<u32, Fault>
        ensures { result ≡ end_of self.entry.first self.entry.text.now }
    {
        if !self.text.is_empty() {
            return Err(Fault::LineEnd { line: self.first });
        }
        Ok(self.first)
    }
}

// The first line, without its byte 10, and what comes after it.
#[tactic(auto, using(crate::proofs::CutLaws::shorter))]
pub fn first_line<'a>(text: &'a [u8], line: u32) -> Result<(&'a [u8], &'a [u8]), Fault>
    ensures parts { ok_as held_two result ≡ first_line line text.now }
    ensures shorter { KeptOk (λ p. length p.1.now < length text.now) result }
{
    if text.is_empty() {
        return Err(Fault::EndsEarly { line });
    }
    cut(text, b'\n').ok_or(Fault::LineEnd { line })
}

// A state that takes a text in, a line at a time.
pub trait LineSink {
    // What a state says, in plain values.
    ghost model: { Type 0 };

    ghost view: { Self → model };

    // What a line, with its number, makes of that.
    ghost step: { model → ℕ → List ℕ → Outcome model Wrong };

    fn take_line(&mut self, line: Line) -> Result<(), Fault>
        ensures { Took (step (view self.old) line.entry.number line.entry.bytes.now) result (view self.new) };
}

// Hands each line to the sink, and answers the number of the line after the last.
pub fn read_lines<S: LineSink>(sink: &mut S, lines: Lines) -> Result<u32, Fault>
    ensures { TookAll (read_lines S.LineSink.step (S.LineSink.view sink.old) lines.entry.first (pieces 10 lines.entry.text.now)) result (S.LineSink.view sink.new) }
{
    let mut rest = lines;
    while let Some((line, after)) = rest.split_first() {
        sink.take_line(line)?;
        rest = after;
    }
    rest.expect_end()
}
