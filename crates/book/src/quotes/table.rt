// Reading and lowering quotes.
ghost use Rattle.std.specs.Prelude.{◌≡◌};
ghost use Rattle.book.specs.Quotes.{standing, no_quotes, quote_at, lowered, smaller};

use crate::goal::Goal;
use crate::quotes::Quotes;
use crate::target::Target;

// The smaller of a claim and the one that stands, if one does.
fn smaller_claim(standing: Option<u32>, claim: u32) -> u32
    ensures { result ≡ smaller standing claim }
{
    standing.map_or(claim, |quote| quote.min(claim))
}

impl Quotes {
    pub fn none() -> Quotes
        ensures { standing result ≡ no_quotes }
    {
        Quotes {
            delay: None,
            backlog: [None; 8],
        }
    }

    // The claim that stands for a target. Reading it and writing it, below, lend the place differently, so each has its match.
    pub fn get(&self, target: Target) -> Option<u32>
        ensures { result ≡ quote_at (standing self.now) target.goal target.at }
    {
        match target.goal {
            Goal::Delay => self.delay,
            Goal::Backlog => self.backlog[(target.at - 1) as usize],
        }
    }

    // Lets a claim stand, unless a smaller one does, and answers the one that stands then.
    pub fn lower(&mut self, target: Target, claim: u32) -> u32
        ensures answer { result ≡ smaller (quote_at (standing self.old) target.goal target.at) claim }
        ensures after { standing self.new ≡ lowered (standing self.old) target.goal target.at result }
    {
        let quote = smaller_claim(self.get(target), claim);
        match target.goal {
            Goal::Delay => self.delay = Some(quote),
            Goal::Backlog => self.backlog[(target.at - 1) as usize] = Some(quote),
        }
        quote
    }
}
