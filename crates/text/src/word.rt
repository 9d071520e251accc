// The words of a line.
ghost use Rattle.std.specs.Prelude.{◌≡◌, ◌≤◌, length};
ghost use Rattle.std.specs.Char.{is_ascii_lowercase};
ghost use Rattle.std.specs.List.{list_all};
ghost use Rattle.text.specs.Words.{digits_from, number_of, is_name, classify, wrong_at, number_in, name_in};

use crate::fault::Fault;

// A word is a part of its text: a number, a name, or neither. It has its line and its place in that, both from 1, so that a fault can
// name them. By a rule of the project it is an enum whose cases borrow the text.
#[derive(Clone, Copy)]
pub enum Word<'a> {
    Number {
        value: u32,
        text: &'a [u8],
        line: u32,
        place: u32,
    },
    Name {
        text: &'a [u8],
        line: u32,
        place: u32,
    },
    Other {
        text: &'a [u8],
        line: u32,
        place: u32,
    },
}

// The number that digits write. A loop, since nothing bounds what `try_fold` would hand its closure.
fn value_of(text: &[u8]) -> Option<u32>
    requires { length text.now ≤ 8 }
    ensures { result ≡ digits_from 0 text.now }
{
    let mut value = 0u32;
    for b in text {
        if !b.is_ascii_digit() {
            return None;
        }
        value = value * 10 + (*b - b'0') as u32;
    }
    Some(value)
}

// The number that one to eight digits write.
fn number_of(text: &[u8]) -> Option<u32>
    ensures { result ≡ number_of text.now }
{
    if (1..=8).contains(&text.len()) {
        value_of(text)
    } else {
        None
    }
}

fn all_lowercase(text: &[u8]) -> bool
    ensures { result ≡ list_all is_ascii_lowercase text.now }
{
    text.iter().all(|b| b.is_ascii_lowercase())
}

// Whether these bytes are a name: one or more letters a to z.
fn is_name(text: &[u8]) -> bool
    ensures { result ≡ is_name text.now }
{
    !text.is_empty() && all_lowercase(text)
}

// The word that these bytes are.
pub fn word_of<'a>(text: &'a [u8], line: u32, place: u32) -> Word<'a>
    ensures { result ≡ classify text.entry line place }
{
    if let Some(value) = number_of(text) {
        return Word::Number {
            value,
            text,
            line,
            place,
        };
    }
    if is_name(text) {
        Word::Name { text, line, place }
    } else {
        Word::Other { text, line, place }
    }
}

impl<'a> Word<'a> {
    // The fault of a word that is not what should stand there.
    fn wrong(self) -> Fault
        ensures { result ≡ wrong_at self.entry }
    {
        match self {
            Word::Number { line, place, .. }
            | Word::Name { line, place, .. }
            | Word::Other { line, place, .. } => Fault::WrongWord { line, word: place },
        }
    }

    // The number that the word is.
    pub fn number(self) -> Result<u32, Fault>
        ensures { result ≡ number_in self.entry }
    {
        match self {
            Word::Number { value, .. } => Ok(value),
            _ => Err(self.wrong()),
        }
    }

    // Refuses any word but this name.
    pub fn expect(self, name: &[u8]) -> Result<(), Fault>
        ensures { result ≡ name_in self.entry name.now }
    {
        match self {
            Word::Name { text, .. } if text == name => Ok(()),
            _ => Err(self.wrong()),
        }
    }
}
