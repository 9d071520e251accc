// The book.
ghost use Rattle.std.specs.Prelude.{◌≡◌, ◌≤◌};
ghost use Rattle.std.specs.Option.{ok_or};
ghost use Rattle.text.specs.Continue.{ok_as};
ghost use Rattle.book.specs.declared.fault.BookFault.TheVariants.{NoChain};

use crate::fault::BookFault;
use crate::quotes::Quotes;
use chain::chain::Chain;

pub mod edit;
pub mod judging;
pub mod quoting;
pub mod writing;

// The chain now in the book, if one was opened, the claims that stand for it, and how many edits were made.
#[derive(Drop)]
pub struct Book {
    pub(crate) chain: Option<Chain>,
    pub(crate) quotes: Quotes,
    pub(crate) edits: u32,
    ghost few: { edits ≤ 1000000 },
}

impl Book {
    // The chain, which has to be there.
    fn chain(&self) -> Result<&Chain, BookFault>
        ensures { ok_as (λ c. c.now) result ≡ ok_or self.now.chain NoChain }
    {
        self.chain.as_ref().ok_or(BookFault::NoChain)
    }
}
