// The streams of a part, and where the unknowns of each begin.
ghost use Rattle.std.specs.Prelude.{◌≡◌, ℕ, ◌+◌, ◌<◌, ◌≤◌, length, IfSome, MatchOption};
ghost use Rattle.chain.specs.Shape.{next};
ghost use Rattle.sheet.specs.Parts.{Cut, stream_rows, widths};
ghost use Rattle.sheet.specs.Rows.{Fits, terms_of};

use crate::kept::Kept;
use crate::part::Part;
use crate::part::cut::{cut, rows_of, width};
use crate::row::Row;
use chain::shape::next_relay;
use chain::stream::Stream;

// A stream of the chain, the last relay of the part, and how many unknowns stand before the stream's own.
#[derive(Clone, Copy)]
pub struct PartStream<'a> {
    pub stream: &'a Stream,
    pub last: u32,
    pub offset: u32,
    ghost after_dates: { next last ≤ offset },
    ghost few: { offset ≤ 320 },
}

// The streams that are still to come, in their order.
#[derive(Drop)]
pub struct PartStreams<'a> {
    rest: &'a [Stream],
    last: u32,
    offset: u32,
    ghost after_dates: { next last ≤ offset },
    ghost few: { offset + widths last rest.now ≤ 320 },
}

// A stream of a part, and an index among its rows.
#[derive(Clone, Copy)]
pub struct Found<'a> {
    pub stream: PartStream<'a>,
    pub index: u32,
}

impl<'a> PartStream<'a> {
    ghost use Rattle.sheet.specs.Ends.{stream_end};

    // What the part has of it; nothing if it begins after the last relay.
    pub fn keep(&self) -> Option<Kept<'a>>
        ensures { MatchOption result (self.now.last < self.now.stream.now.stretch.from) (λ kept. (kept.offset ≡ self.now.offset) × Cut self.now.stream.now.stretch self.now.last kept.stretch × (kept.curve.now ≡ self.now.stream.now.curve)) }
    {
        let stretch = cut(&self.stream.stretch, self.last)?;
        Some(Kept {
            stretch,
            curve: &self.stream.curve,
            offset: self.offset,
        })
    }

    // What it lets through a relay between its date and the next, if it crosses it.
    fn write_crossing(&self, relay: u32, out: &mut Row)
        requires room { length (terms_of out.old) ≤ 32 }
        ensures count { length (terms_of out.new) ≤ length (terms_of out.old) + 2 }
        ensures fits { (n : ℕ) → Fits n out.old → stream_end self.now ≤ n → Fits n out.new }
    {
        let Some(kept) = self.keep() else {
            return;
        };
        if let Some(position) = kept.stretch.position(relay) {
            out.plus(kept.out_at(position), 1);
            out.minus(kept.out_at(position + 1), 1);
        }
    }
}

impl<'a> PartStreams<'a> {
    // All of these, in the part that leads to a relay; the unknowns of the first come after the dates.
    pub fn new(streams: &'a [Stream], last: u32) -> PartStreams<'a>
        requires some { length streams.now ≤ 16 }
        requires short { last ≤ 8 }
        ensures rest { result.rest.now ≡ streams.now }
        ensures last { result.last ≡ last }
        ensures offset { result.offset ≡ next last }
    {
        PartStreams {
            rest: streams,
            last,
            offset: next_relay(last),
        }
    }
}

impl<'a> Iterator for PartStreams<'a> {
    type Item = PartStream<'a>;

    ghost use Rattle.std.specs.Prelude.{length};
    ghost use Rattle.std.specs.Iterator.{at_most};
    ghost use Rattle.sheet.specs.Streams.{TakesFirst};

    ghost next_gives = { TakesFirst };

    ghost remaining = { λ s. at_most (length s.rest.now) };

    fn next(&mut self) -> Option<PartStream<'a>> {
        let (stream, rest) = self.rest.split_first()?;
        let first = PartStream {
            stream,
            last: self.last,
            offset: self.offset,
        };
        *self = PartStreams {
            rest,
            last: self.last,
            offset: self.offset + width(&stream.stretch, self.last),
        };
        Some(first)
    }
}

impl<'a> Part<'a> {
    ghost use Rattle.sheet.specs.Ends.{part_end, stream_end};

    // The stream that has the row at an index, from 0, among the rows of all streams.
    pub fn find_stream(&self, index: u32) -> Option<Found<'a>>
        ensures { IfSome result (λ found. (found.index < stream_rows self.now.last found.stream.stream.now) × (found.stream.last ≡ self.now.last) × (stream_end found.stream ≤ part_end self.now)) }
    {
        let mut left = index;
        for stream in PartStreams::new(self.streams(), self.last) {
            let rows = rows_of(stream.stream, self.last);
            if left < rows {
                return Some(Found {
                    stream,
                    index: left,
                });
            }
            left -= rows;
        }
        None
    }

    // What each stream lets through a relay, in their order.
    pub fn write_crossings(&self, relay: u32, out: &mut Row)
        requires { length (terms_of out.old) ≤ 2 }
        ensures { (n : ℕ) → Fits n out.old → part_end self.now ≤ n → Fits n out.new }
    {
        for stream in PartStreams::new(self.streams(), self.last) {
            stream.write_crossing(relay, out);
        }
    }
}
