// A new book, and opening a chain in it.
ghost use Rattle.std.specs.Prelude.{◌≡◌, None};
ghost use Rattle.book.specs.Books.{OpenOutcome};
ghost use Rattle.book.specs.Quotes.{standing, no_quotes};

use crate::book::Book;
use crate::fault::BookFault;
use crate::quotes::Quotes;
use chain::chain::Chain;
use chain::read::read_draft;
use std::alloc::Global;

impl Book {
    pub fn new() -> Book
        ensures chain { result.chain ≡ None }
        ensures quotes { standing result.quotes ≡ no_quotes }
        ensures edits { result.edits ≡ 0 }
    {
        Book {
            chain: None,
            quotes: Quotes::none(),
            edits: 0,
        }
    }

    // Puts the chain of a text into the book, and answers whether the quotes were kept: they are if the same chain stood.
    pub fn open(&mut self, heap: Global, text: &[u8]) -> Result<bool, BookFault>
        ensures { OpenOutcome self.old text.now result self.new }
    {
        if self.edits >= 1_000_000 {
            return Err(BookFault::EditsExhausted);
        }
        let draft = read_draft(text)?;
        let chain = Chain::build(heap, &draft)?;
        let kept = self.chain.as_ref().is_some_and(|old| chain.same(old));
        if !kept {
            self.quotes = Quotes::none();
        }
        self.chain = Some(chain);
        self.edits += 1;
        Ok(kept)
    }
}
