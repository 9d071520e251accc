// Judging a paper on a book.
ghost use Rattle.book.specs.Books.{JudgeOutcome};

use crate::book::Book;
use crate::fault::BookFault;
use crate::paper::judge_paper;
use crate::verdict::Verdict;

impl Book {
    // The verdict on a paper that passes. The sums of the place judged last stand at the front of the lent memory.
    pub fn judge(&self, paper: &[u8], sums: &mut [i64]) -> Result<Verdict, BookFault>
        ensures { JudgeOutcome self.now.chain self.now.edits paper.now result sums.old sums.new }
    {
        let aim = judge_paper(self.chain()?, paper, sums)?;
        Ok(Verdict {
            target: aim.target,
            claim: aim.stated.claim,
            edits: self.edits,
        })
    }
}
