// The streams of a draft.
ghost use Rattle.std.specs.Prelude.{◌≡◌, ◌≤◌, true, [], length};
ghost use Rattle.few.specs.Values.{items};
ghost use Rattle.text.specs.Continue.{ok_as, KeptOk};
ghost use Rattle.chain.specs.Keeps.{lie_within, stops_if_any};

use crate::curve::ArrivalCurve;
use crate::draft::place_of;
use crate::draft::relays::RelayDraft;
use crate::line::ArrivalLine;
use crate::row::StreamRow;
use crate::stream::Stream;
use crate::stretch::Stretch;
use few::Few;
use text::fault::Fault;

// All relays, and the streams so far.
#[derive(Clone, Copy)]
pub struct StreamDraft {
    pub(crate) relays: RelayDraft,
    pub(crate) table: Few<Stream, 16>,
    ghost few: { length (items table) ≤ 16 },
    ghost some: { 1 ≤ length (items relays.table) },
    ghost lies: { lie_within (length (items relays.table)) (items table) ≡ true },
    ghost stops: { stops_if_any (length (items relays.table)) (items table) ≡ true },
}

impl StreamDraft {
    ghost use Rattle.chain.specs.Drafts.{place_stream, relay_plans, stream_plans};
    ghost use Rattle.chain.specs.Parsed.{stream_line_of};

    // No stream yet.
    pub fn new(relays: RelayDraft) -> StreamDraft
        requires { 1 ≤ length (items relays.table) }
        ensures relays { result.relays ≡ relays }
        ensures streams { stream_plans result ≡ [] }
    {
        let stretch = Stretch {
            from: 1,
            to: 1,
            relays: 1,
        };
        let curve = ArrivalCurve::single(ArrivalLine { burst: 1, rate: 0 });
        StreamDraft {
            relays,
            table: Few::none(Stream { stretch, curve }),
        }
    }

    // How many streams there are.
    pub fn len(&self) -> usize
        ensures plans { result ≡ length (stream_plans self.now) }
        ensures count { result ≡ length (items self.now.table) }
    {
        self.table.len()
    }

    pub fn streams(&self) -> &[Stream]
        ensures items { result.now ≡ items self.now.table }
        ensures few { length result.now ≤ 16 }
    {
        self.table.as_slice()
    }

    // A further line of the last stream, or the first of the next. What the drafts of relays and streams share is `place_of`; what a
    // line makes of each differs, as they keep other things.
    pub fn with(mut self, row: StreamRow) -> Result<StreamDraft, Fault>
        ensures relays { KeptOk (λ d. d.relays ≡ self.relays) result }
        ensures streams { ok_as stream_plans result ≡ place_stream (length (relay_plans self.relays)) (stream_plans self) (stream_line_of row) }
    {
        let k = place_of(row.number, self.len(), row.at)?;
        if k < self.len() {
            let stream = self.streams()[k].further(row)?;
            self.table.set(k, stream);
            return Ok(self);
        }
        let stream = Stream::first(self.relays.len() as u32, row)?;
        self.table
            .try_push(stream)
            .map_err(|_| Fault::TooMany { line: row.at })?;
        Ok(self)
    }
}

impl Stream {
    ghost use Rattle.chain.specs.Drafts.{first_line, lengthened};
    ghost use Rattle.chain.specs.Parsed.{stream_line_of};
    ghost use Rattle.chain.specs.Plan.{stream_plan};

    // The stream that a first line states, of a chain of so many relays: the stop stream runs over all of them.
    fn first(relays: u32, row: StreamRow) -> Result<Stream, Fault>
        requires { relays ≤ 8 }
        ensures plan { ok_as stream_plan result ≡ first_line relays (stream_line_of row) }
        ensures lies { KeptOk (λ s. s.stretch.relays ≡ relays) result }
        ensures stops { KeptOk (λ s. row.number ≤ 1 → (s.stretch.from ≡ 1) × (s.stretch.to ≡ relays)) result }
    {
        if row.number <= 1 && (row.from != 1 || row.to != relays) {
            return Err(Fault::WrongStretch { line: row.at });
        }
        let stretch = Stretch::new(row.from, row.to, relays).ok_or(Fault::WrongStretch {
            line: row.at,
        })?;
        Ok(Stream {
            stretch,
            curve: ArrivalCurve::single(row.line),
        })
    }

    // With a further line, in which its stretch stands again.
    fn further(self, row: StreamRow) -> Result<Stream, Fault>
        ensures plan { ok_as stream_plan result ≡ lengthened (stream_plan self) (stream_line_of row) }
        ensures stretch { KeptOk (λ s. s.stretch ≡ self.stretch) result }
    {
        // A line does not say of how many relays the chain is, so there is no stretch to compare with yet.
        if row.from != self.stretch.from || row.to != self.stretch.to {
            return Err(Fault::WrongStretch { line: row.at });
        }
        let curve = self.curve.with(row.at, row.line)?;
        Ok(Stream {
            stretch: self.stretch,
            curve,
        })
    }
}
