// Writing quotes and rows into lent memory.
ghost use Rattle.std.specs.Prelude.{◌≡◌, None, Err};
ghost use Rattle.book.specs.declared.fault.BookFault.TheVariants.{NoChain};
ghost use Rattle.book.specs.Books.{quotes_answer, quotes_leave};
ghost use Rattle.book.specs.Written.{Wrote};

use crate::book::Book;
use crate::fault::BookFault;
use crate::goal::Goal;
use crate::rows::row_page;
use crate::target::Target;
use crate::write::{put_page, quotes_page};
use chain::chain::Chain;
use sheet::backlog::BacklogSheet;
use sheet::delay::DelaySheet;
use text::page::Page;

// The text of a row of the sheet of a target, if there is such a row. Each goal has its own type of sheet, hence the match.
fn row_text(chain: &Chain, target: Target, place: u32, row: u32) -> Option<Page> {
    match target.goal {
        Goal::Delay => row_page(&DelaySheet::new(chain), place, row),
        Goal::Backlog => row_page(&BacklogSheet::new(chain, target.at)?, place, row),
    }
}

impl Book {
    // Writes the quotes that stand, and answers the length of their text.
    pub fn write_quotes(&self, out: &mut [u8]) -> Result<usize, BookFault>
        ensures answer { result ≡ quotes_answer self.now out.old }
        ensures after { out.new ≡ quotes_leave self.now out.old }
    {
        self.chain()?;
        put_page(&quotes_page(&self.quotes), out)
    }

    // Writes a row of the sheet of a goal, or at 0 the names above rows, and answers the length of the text. Goal and `at` are no target
    // yet: together they may name nothing.
    pub fn write_row(
        &self,
        goal: Goal,
        at: u32,
        place: u32,
        row: u32,
        out: &mut [u8],
    ) -> Result<usize, BookFault>
        ensures chain { self.now.chain ≡ None → result ≡ Err NoChain }
        ensures wrote { Wrote out.old result out.new }
    {
        let chain = self.chain()?;
        let target = Target::find(chain, goal, at).ok_or(BookFault::NamesNothing)?;
        let page = row_text(chain, target, place, row).ok_or(BookFault::NamesNothing)?;
        put_page(&page, out)
    }
}
