// Writing quotes, rows and refusals into lent memory.
ghost use Rattle.std.specs.Prelude.{◌≡◌, ◌+◌, ◌^◌, ◌<◌, ◌≤◌, length, unsigned_abs};
ghost use Rattle.text.specs.Written.{on_page, added_to, answer, filled, refusal_text};
ghost use Rattle.book.specs.Places.{goal_word};
ghost use Rattle.book.specs.Quotes.{standing};
ghost use Rattle.book.specs.Refusals.{book_refusal};
ghost use Rattle.book.specs.Written.{told};
ghost use Rattle.book.specs.Writing.{quote_parts, quotes_text, term_parts};

use crate::fault::BookFault;
use crate::goal::Goal;
use crate::quotes::Quotes;
use crate::target::Target;
use sheet::row::Term;
use text::page::Page;
use text::write::write_refusal as put_refusal;

// Adds a line for a quote, if there is one.
fn add_quote(page: &mut Page, target: Target, quote: Option<u32>)
    requires { length (on_page page.old) + 30 ≤ 2048 }
    ensures text { on_page page.new ≡ added_to (on_page page.old) (quote_parts (goal_word target.goal) target.at quote) }
    ensures bound { length (on_page page.new) ≤ length (on_page page.old) + 30 }
{
    if let Some(claim) = quote {
        page.add(target.goal.word());
        page.add(b" ");
        page.add_number(target.at);
        page.add(b" ");
        page.add_number(claim);
        page.add(b"\n");
    }
}

// The text of the quotes that stand.
pub fn quotes_page(quotes: &Quotes) -> Page
    ensures { on_page result ≡ quotes_text (standing quotes.now) }
{
    let mut page = Page::empty();
    page.add(b"goal at claim\n");
    let delay = Target {
        goal: Goal::Delay,
        at: 0,
    };
    add_quote(&mut page, delay, quotes.delay);
    for (i, quote) in quotes.backlog.iter().enumerate() {
        let relay = Target {
            goal: Goal::Backlog,
            at: i as u32 + 1,
        };
        add_quote(&mut page, relay, *quote);
    }
    page
}

// Adds the line of a term.
pub fn add_term_line(page: &mut Page, row: u32, term: Term)
    requires small { unsigned_abs term.times < 2 ^ 32 }
    requires room { length (on_page page.old) + 34 ≤ 2048 }
    ensures text { on_page page.new ≡ added_to (on_page page.old) (term_parts row term.unknown term.times) }
    ensures bound { length (on_page page.new) ≤ length (on_page page.old) + 34 }
{
    page.add_number(row);
    page.add(b" ");
    page.add_number(term.unknown);
    page.add(b" ");
    page.add_signed(term.times);
    page.add(b"\n");
}

// Copies a page to the start of lent memory and answers its length.
pub fn put_page(page: &Page, out: &mut [u8]) -> Result<usize, BookFault>
    ensures answer { result ≡ told (answer (on_page page.now) out.old) }
    ensures after { out.new ≡ filled (on_page page.now) out.old }
{
    Ok(page.put(out)?)
}

// Writes a line of names and the refusal of a fault: its number and two values.
pub fn write_refusal(fault: BookFault, out: &mut [u8]) -> Result<usize, BookFault>
    ensures answer { result ≡ told (answer (refusal_text (book_refusal fault)) out.old) }
    ensures after { out.new ≡ filled (refusal_text (book_refusal fault)) out.old }
{
    Ok(put_refusal(fault.into(), out)?)
}
