// Parts of a text: the pieces that a byte parts. Each contract says what a part holds and where in memory it lies.
ghost use Rattle.std.specs.Prelude.{◌≡◌, ◌+◌, ◌<◌, ◌≤◌, ◌==◌, length, take, drop, position};
ghost use Rattle.text.specs.Pieces.{cut_at, held, pieces, holds, at, words, word_count};
ghost use Rattle.text.specs.Seats.{seat, seated, seated_two, on, cut_seat, parts, word_seats};

// What stands before the byte at i and what stands after it.
fn around<'a>(text: &'a [u8], i: usize) -> (&'a [u8], &'a [u8])
    requires { i < length text.now }
    ensures front { seat result.0 ≡ (text.entry.ref_ptr, take i text.now) }
    ensures back { seat result.1 ≡ (on text.entry.ref_ptr (i + 1), drop (i + 1) text.now) }
{
    (&text[0..i], &text[i + 1..])
}

// Where the first byte `stop` stands.
fn find(text: &[u8], stop: u8) -> Option<usize>
    ensures { result ≡ position (λ b. b == stop) text.now }
{
    text.iter().position(|b| *b == stop)
}

// What stands before the first byte `stop` and what stands after it.
pub fn cut<'a>(text: &'a [u8], stop: u8) -> Option<(&'a [u8], &'a [u8])>
    ensures bytes { held result ≡ cut_at stop text.now }
    ensures seats { seated_two result ≡ cut_seat text.entry.ref_ptr (cut_at stop text.now) }
{
    let i = find(text, stop)?;
    Some(around(text, i))
}

// What is left of a text. A loop's invariant sees where it lies; of a plain reference it would see only what that holds.
#[derive(Clone, Copy)]
struct Rest<'a> {
    text: &'a [u8],
}

// The piece with the number k, from 0, of those that the bytes `stop` part. The library's `split` does not say where a piece lies.
pub fn piece<'a>(text: &'a [u8], stop: u8, k: usize) -> Option<&'a [u8]>
    ensures bytes { holds result ≡ at (pieces stop text.now) k }
    ensures seats { seated result ≡ at (parts stop (seat text.entry)) k }
{
    let mut rest = Rest { text };
    for _i in 0..k {
        let (_, after) = cut(rest.text, stop)?;
        rest = Rest { text: after };
    }
    // As `map_or` this proved only with more to answer.
    match cut(rest.text, stop) {
        Some((front, _)) => Some(front),
        None => Some(rest.text),
    }
}

// How many bytes `stop` there are: one less than pieces.
#[tactic(auto, using(crate::proofs::CutLaws::pieces_count))]
pub fn count(text: &[u8], stop: u8) -> usize
    ensures exact { result + 1 ≡ length (pieces stop text.now) }
    ensures bound { result ≤ length text.now }
{
    text.iter().filter(|b| **b == stop).count()
}

// How many words a line has: every single byte 32 parts two, and the empty line has none.
pub fn word_count(row: &[u8]) -> usize
    ensures { result ≡ word_count row.now }
{
    if row.is_empty() {
        0
    } else {
        count(row, b' ') + 1
    }
}

// The word with the number k, from 0, of a line.
pub fn nth_word<'a>(row: &'a [u8], k: usize) -> Option<&'a [u8]>
    ensures bytes { holds result ≡ at (words row.now) k }
    ensures seats { seated result ≡ at (word_seats (seat row.entry)) k }
{
    if row.is_empty() {
        None
    } else {
        piece(row, b' ', k)
    }
}
