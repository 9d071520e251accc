// How much of a stream a part has.
ghost use Rattle.std.specs.Prelude.{◌≡◌, ◌<◌, ◌≤◌, MatchOption};
ghost use Rattle.sheet.specs.Parts.{Cut, pairs_of, rows_of, stream_rows, values, width_of};

use chain::stream::Stream;
use chain::stretch::Stretch;

// What is left of a stretch that is cut after a relay; nothing if it begins later.
pub fn cut(stretch: &Stretch, last: u32) -> Option<Stretch>
    ensures { MatchOption result (last < stretch.now.from) (Cut stretch.now last) }
{
    if last < stretch.from {
        return None;
    }
    Some(Stretch {
        from: stretch.from,
        to: stretch.to.min(last),
        relays: stretch.relays,
    })
}

// How many unknowns a stretch has: an in and an out value at each relay and after the last.
pub fn values(stretch: &Stretch) -> u32
    ensures value { result ≡ values stretch.now }
    ensures few { result ≤ 18 }
{
    2 * (stretch.hops() + 1)
}

// The same of what is left of it.
pub fn width(stretch: &Stretch, last: u32) -> u32
    ensures value { result ≡ width_of last stretch.now }
    ensures few { result ≤ 18 }
{
    cut(stretch, last).map_or(0, |kept| values(&kept))
}

// Pairs of different nodes on a stretch of so many relays.
fn pairs(hops: u32) -> u32
    requires { hops ≤ 8 }
    ensures value { result ≡ pairs_of hops }
    ensures few { result ≤ 36 }
{
    hops * (hops + 1) / 2
}

// The rows of a stream over so many relays with so many lines.
pub fn stream_rows(hops: u32, lines: u32) -> u32
    requires short { hops ≤ 8 }
    requires plain { lines ≤ 4 }
    ensures { result ≡ rows_of hops lines }
{
    1 + (hops + 1) + hops + hops + lines * pairs(hops)
}

// The same of what is left of a stream.
pub fn rows_of(stream: &Stream, last: u32) -> u32
    ensures value { result ≡ stream_rows last stream.now }
    ensures few { result ≤ 170 }
{
    cut(&stream.stretch, last).map_or(
        0,
        |kept| stream_rows(kept.hops(), stream.curve.lines().len() as u32),
    )
}
