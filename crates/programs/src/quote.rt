// The program `quote`: a chain and a paper in, the quotes or a refusal out.
ghost use Rattle.book.specs.Written.{Wrote};

use book::book::Book;
use book::fault::BookFault;
use book::write::write_refusal;
use std::alloc::Global;

// Opens the chain, judges the paper, enters the verdict and writes the quotes.
fn write_quotes(
    heap: Global,
    chain: &[u8],
    paper: &[u8],
    out: &mut [u8],
) -> Result<usize, BookFault>
    ensures { Wrote out.old result out.new }
{
    let mut book = Book::new();
    book.open(heap, chain)?;
    let mut sums = [0i64; 320];
    let verdict = book.judge(paper, &mut sums)?;
    book.enter(verdict)?;
    book.write_quotes(out)
}

// The answer to a chain and a paper, written to the start of `out`: the quotes, or the first refusal. Its length is answered, or that
// `out` is too short for it.
pub fn answer(heap: Global, chain: &[u8], paper: &[u8], out: &mut [u8]) -> Result<usize, BookFault>
    ensures { Wrote out.old result out.new }
{
    // Not by `or_else`: of what its closure leaves in `out` nothing would be known.
    match write_quotes(heap, chain, paper, out) {
        Err(fault) => write_refusal(fault, out),
        written => written,
    }
}
