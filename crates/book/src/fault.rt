// Why a call on a book is refused.
ghost use Rattle.std.specs.Prelude.{◌≡◌};
ghost use Rattle.book.specs.declared.fault.BookFault.TheVariants.{Reading, Judging, OutOfMemory, MemoryTooShort};
ghost use Rattle.book.specs.Refusals.{book_refusal};

use judge::fault::JudgeFault;
use std::alloc::AllocError;
use text::fault::{Fault, Refusal};
use text::page::Short;

#[derive(Clone, Copy, Debug, PartialEq, Eq)]
pub enum BookFault {
    // A million edits were made.
    EditsExhausted,
    NoChain,
    // The chain was edited since the verdict was given.
    EditsMoved,
    // The chain's text is not in order.
    Reading(Fault),
    // The paper does not pass.
    Judging(JudgeFault),
    // An argument names no relay, place or row.
    NamesNothing,
    // The lent memory is too short.
    MemoryTooShort,
    // There is no memory for the chain.
    OutOfMemory,
}

impl From<Fault> for BookFault {
    ghost from_gives = { λ f r. r ≡ Reading f };

    fn from(f: Fault) -> BookFault {
        BookFault::Reading(f)
    }
}

impl From<JudgeFault> for BookFault {
    ghost from_gives = { λ f r. r ≡ Judging f };

    fn from(f: JudgeFault) -> BookFault {
        BookFault::Judging(f)
    }
}

impl From<AllocError> for BookFault {
    ghost from_gives = { λ _ r. r ≡ OutOfMemory };

    fn from(_e: AllocError) -> BookFault {
        BookFault::OutOfMemory
    }
}

impl From<Short> for BookFault {
    ghost from_gives = { λ _ r. r ≡ MemoryTooShort };

    fn from(_e: Short) -> BookFault {
        BookFault::MemoryTooShort
    }
}

impl From<BookFault> for Refusal {
    ghost from_gives = { λ f r. r ≡ book_refusal f };

    fn from(fault: BookFault) -> Refusal {
        let number = match fault {
            BookFault::Reading(fault) => return fault.into(),
            BookFault::Judging(fault) => return fault.into(),
            BookFault::NamesNothing => 5,
            BookFault::MemoryTooShort => 8,
            BookFault::OutOfMemory => 9,
            BookFault::NoChain => 21,
            BookFault::EditsMoved => 22,
            BookFault::EditsExhausted => 26,
        };
        Refusal {
            number,
            first: 0,
            second: 0,
        }
    }
}

impl BookFault {
    // The number and the two values by which it is told.
    pub fn refusal(self) -> Refusal
        ensures { result ≡ book_refusal self }
    {
        self.into()
    }
}
