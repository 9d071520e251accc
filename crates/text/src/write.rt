// Writes texts without taking memory. Not by `write!`, whose `Result` nothing shows to be `Ok` where the page has room.
ghost use Rattle.std.specs.Prelude.{◌≡◌, ◌+◌, ◌^◌, ◌<◌, ◌≤◌, [], ◌++◌, length, decimal, unsigned_abs};
ghost use Rattle.std.specs.Fmt.{signed_decimal};
ghost use Rattle.text.specs.Written.{on_page, filled, answer, refusal_text};

use crate::fault::Refusal;
use crate::page::{Page, Short};
use few::Few;
use itoa::Buffer;

impl Page {
    pub fn empty() -> Page
        ensures bytes { on_page result ≡ [] }
        ensures len { length (on_page result) ≡ 0 }
    {
        Page { text: Few::none(0) }
    }

    // Adds a text that has room.
    pub fn add(&mut self, text: &[u8])
        requires { length (on_page self.old) + length text.now ≤ 2048 }
        ensures bytes { on_page self.new ≡ on_page self.old ++ text.now }
        ensures len { length (on_page self.new) ≡ length (on_page self.old) + length text.now }
    {
        self.text.extend_from_slice(text);
    }

    // Adds a number, which has at most ten digits.
    pub fn add_number(&mut self, n: u32)
        requires { length (on_page self.old) + 10 ≤ 2048 }
        ensures bytes { on_page self.new ≡ on_page self.old ++ decimal n }
        ensures len { length (on_page self.new) ≡ length (on_page self.old) + length (decimal n) }
        ensures bound { length (on_page self.new) ≤ length (on_page self.old) + 10 }
    {
        let mut digits = Buffer::new();
        self.add(digits.format(n).as_bytes());
    }

    // Adds a number with `-` before it where it is negative.
    #[tactic(auto, using(crate::proofs::DigitLaws::signed_digits))]
    pub fn add_signed(&mut self, n: i64)
        requires small { unsigned_abs n < 2 ^ 32 }
        requires room { length (on_page self.old) + 11 ≤ 2048 }
        ensures bytes { on_page self.new ≡ on_page self.old ++ signed_decimal n }
        ensures len { length (on_page self.new) ≡ length (on_page self.old) + length (signed_decimal n) }
        ensures bound { length (on_page self.new) ≤ length (on_page self.old) + 11 }
    {
        let mut digits = Buffer::new();
        self.add(digits.format(n).as_bytes());
    }

    // Copies the page to the start of lent memory, by a rule of the project, and answers its length. Where it is too short it stays as
    // it was.
    pub fn put(&self, out: &mut [u8]) -> Result<usize, Short>
        ensures told { result ≡ answer (on_page self.now) out.old }
        ensures after { out.new ≡ filled (on_page self.now) out.old }
    {
        let text = self.text.as_slice();
        let n = text.len();
        if n > out.len() {
            return Err(Short);
        }
        out[0..n].copy_from_slice(text);
        Ok(n)
    }
}

// Writes a line of names and the three numbers of a refusal.
pub fn write_refusal(refusal: Refusal, out: &mut [u8]) -> Result<usize, Short>
    ensures told { result ≡ answer (refusal_text refusal) out.old }
    ensures after { out.new ≡ filled (refusal_text refusal) out.old }
{
    let mut page = Page::empty();
    page.add(b"refusal first second\n");
    page.add_number(refusal.number);
    page.add(b" ");
    page.add_number(refusal.first);
    page.add(b" ");
    page.add_number(refusal.second);
    page.add(b"\n");
    page.put(out)
}
