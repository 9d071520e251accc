// The word of a text at a line and a place.
ghost use Rattle.std.specs.Prelude.{◌≡◌};
ghost use Rattle.text.specs.Seats.{seat, seated, shown_at};

use crate::cut::{nth_word, piece};

// The word at a line and a place, both from 1, as the part of the text that it is. What follows the last byte 10 is a line too, and an
// empty line has no words.
pub fn show<'a>(text: &'a [u8], line: usize, word: usize) -> Option<&'a [u8]>
    ensures { seated result ≡ shown_at (seat text.entry) line word }
{
    let row = piece(text, b'\n', line.checked_sub(1)?)?;
    nth_word(row, word.checked_sub(1)?)
}
