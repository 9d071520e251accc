// One line of a text, and what stands at its places.
ghost use Rattle.std.specs.Prelude.{◌≡◌, ◌^◌, ◌<◌, ◌==◌, length, map};
ghost use Rattle.text.specs.declared.fault.Fault.TheVariants.{WordCount};
ghost use Rattle.text.specs.Continue.{ok_as, unless};
ghost use Rattle.text.specs.Pieces.{word_count};
ghost use Rattle.text.specs.Read.{bytes_at, number_at, name_at, names_line, begins_with};

use crate::cut::{nth_word, word_count};
use crate::fault::Fault;
use crate::word::word_of;

// The bytes of a line without its byte 10, and its number, from 1, by which its faults are told.
#[derive(Clone, Copy)]
pub struct Line<'a> {
    pub bytes: &'a [u8],
    pub number: u32,
}

impl<'a> Line<'a> {
    // Refuses any number of words but this.
    pub fn expect_words(self, count: usize) -> Result<(), Fault>
        ensures { result ≡ unless (word_count self.entry.bytes.now == count) (WordCount self.entry.number) (Ok tt) }
    {
        if word_count(self.bytes) != count {
            return Err(Fault::WordCount { line: self.number });
        }
        Ok(())
    }

    // The bytes of the word at a place, from 1.
    fn bytes_at(self, place: u32) -> Result<&'a [u8], Fault>
        ensures { ok_as (λ b. b.now) result ≡ bytes_at self.entry.number place self.entry.bytes.now }
    {
        nth_word(self.bytes, place.saturating_sub(1) as usize).ok_or(Fault::WordCount {
            line: self.number,
        })
    }

    // The number at a place, from 1.
    pub fn number_at(self, place: u32) -> Result<u32, Fault>
        ensures { result ≡ number_at self.entry.number place self.entry.bytes.now }
    {
        let text = self.bytes_at(place)?;
        word_of(text, self.number, place).number()
    }

    // Refuses any word but this name at a place, from 1.
    #[tactic(auto, using(crate::proofs::WordLaws::name_in_lem))]
    pub fn name_at(self, place: u32, name: &[u8]) -> Result<(), Fault>
        ensures { result ≡ name_at self.entry.number place name.now self.entry.bytes.now }
    {
        let text = self.bytes_at(place)?;
        word_of(text, self.number, place).expect(name)
    }

    // Refuses any line but that of these names.
    pub fn expect_names(self, names: &[&str]) -> Result<(), Fault>
        requires { length names.now < 2 ^ 32 }
        ensures { result ≡ names_line self.entry.number (map (λ n. n.now) names.now) self.entry.bytes.now }
    {
        self.expect_words(names.len())?;
        for (k, name) in names.iter().enumerate() {
            self.name_at(k as u32 + 1, name.as_bytes())?;
        }
        Ok(())
    }

    // Whether the first word has these bytes.
    pub fn begins_with(self, name: &[u8]) -> bool
        ensures { result ≡ begins_with name.now self.entry.bytes.now }
    {
        nth_word(self.bytes, 0).is_some_and(|text| text == name)
    }
}
