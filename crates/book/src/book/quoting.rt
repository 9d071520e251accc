// Entering a verdict, and asking for a quote.
ghost use Rattle.std.specs.Prelude.{◌≡◌};
ghost use Rattle.book.specs.Books.{enter_answer, EnterLeaves, quote_answer};

use crate::book::Book;
use crate::fault::BookFault;
use crate::goal::Goal;
use crate::target::Target;
use crate::verdict::Verdict;

impl Book {
    // Lets the claim of a verdict stand, unless a smaller one does, and answers the one that stands then.
    pub fn enter(&mut self, verdict: Verdict) -> Result<u32, BookFault>
        ensures answer { result ≡ enter_answer self.old verdict }
        ensures leaves { EnterLeaves self.old verdict result self.new }
    {
        self.chain()?;
        if verdict.edits != self.edits {
            return Err(BookFault::EditsMoved);
        }
        Ok(self.quotes.lower(verdict.target, verdict.claim))
    }

    // The claim that stands for a goal, if one does. Goal and `at` are no target yet: together they may name nothing.
    pub fn quote(&self, goal: Goal, at: u32) -> Result<Option<u32>, BookFault>
        ensures { result ≡ quote_answer self.now goal at }
    {
        let chain = self.chain()?;
        let target = Target::find(chain, goal, at).ok_or(BookFault::NamesNothing)?;
        Ok(self.quotes.get(target))
    }
}
