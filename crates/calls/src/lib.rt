// Tests of single calls on a book, with the exact refusal of each that is refused.
#![tactic(auto)]

#[cfg(test)]
mod tests {
    use book::book::Book;
    use book::fault::BookFault;
    use book::goal::Goal;
    use book::show;
    use book::verdict::Verdict;
    use book::write::write_refusal;
    use chain::curve::{ArrivalCurve, ServiceCurve};
    use chain::draft::{Draft, RelayDraft, StreamDraft};
    use chain::line::ServiceLine;
    use chain::read::read_draft;
    use chain::stream::{Relay, Stream};
    use few::Few;
    use sheet::row::Row;
    use std::alloc::{AllocError, Global};
    use std::test::Fail;
    use text::fault::Refusal;
    use text::page::Page;

    const CHAIN: &[u8] = b"relay rate hold\n1 10 20\nstream from to burst rate\n1 1 1 5 2\n";
    // The same curves: each further line is covered by another.
    const SAME_CHAIN: &[u8] =
        b"relay rate hold\n1 10 20\n1 9 21\nstream from to burst rate\n1 1 1 6 2\n1 1 1 5 2\n";

    const OTHER_CHAIN: &[u8] = b"relay rate hold\n1 10 19\nstream from to burst rate\n1 1 1 5 2\n";

    const PAPER: &[u8] =
        b"goal at claim scale\ndelay 0 3 10\nplace row times\n1 2 1\n1 3 1\n1 9 8\n1 13 1\n1 14 1\n";

    const LARGER: &[u8] =
        b"goal at claim scale\ndelay 0 4 10\nplace row times\n1 2 1\n1 3 1\n1 9 8\n1 13 1\n1 14 1\n";

    const TOO_LOW: &[u8] =
        b"goal at claim scale\ndelay 0 2 10\nplace row times\n1 2 1\n1 3 1\n1 9 8\n1 13 1\n1 14 1\n";

    const MISSING: &[u8] =
        b"goal at claim scale\ndelay 0 3 10\nplace row times\n1 2 1\n1 3 1\n1 13 1\n1 14 1\n";

    fn told(number: u32, first: u32, second: u32) -> Refusal {
        Refusal {
            number,
            first,
            second,
        }
    }

    // The refusal of an outcome; that of no call where it was not refused.
    fn refusal_of<T: Drop>(outcome: Result<T, BookFault>) -> Refusal {
        match outcome {
            Ok(_) => told(0, 0, 0),
            Err(fault) => fault.refusal(),
        }
    }

    fn opened(heap: Global, chain: &[u8]) -> Result<Book, BookFault> {
        let mut book = Book::new();
        book.open(heap, chain)?;
        Ok(book)
    }

    fn judged(book: &Book, paper: &[u8]) -> Result<Verdict, BookFault> {
        let mut sums = [0i64; 320];
        book.judge(paper, &mut sums)
    }

    // What is quoted after a paper was judged and entered.
    fn entered(book: &mut Book, paper: &[u8]) -> Result<u32, BookFault> {
        let verdict = judged(book, paper)?;
        book.enter(verdict)
    }

    // The quote of the delay; 0 where there is none.
    fn delay_of(book: &Book) -> u32 {
        match book.quote(Goal::Delay, 0) {
            Ok(quote) => quote.unwrap_or(0),
            Err(_) => 0,
        }
    }

    #[test]
    fn a_new_book_has_no_chain(rt: HostRuntime) {
        let book = Book::new();
        let mut out = [7u8; 64];
        assert_eq!(rt; refusal_of(judged(&book, b"")), told(21, 0, 0));
        assert_eq!(rt; refusal_of(book.quote(Goal::Backlog, 9)), told(21, 0, 0));
        assert_eq!(rt; refusal_of(book.write_quotes(&mut out)), told(21, 0, 0));
        assert_eq!(rt;
            refusal_of(book.write_row(Goal::Delay, 5, 0, 0, &mut out)),
            told(21, 0, 0)
        );
    }

    #[test]
    fn a_book_without_a_chain_enters_nothing(rt: HostRuntime) -> Result<(), Fail> {
        let other = opened(rt.alloc(), CHAIN)?;
        let verdict = judged(&other, PAPER)?;
        assert_eq!(rt; refusal_of(Book::new().enter(verdict)), told(21, 0, 0));
        Ok(())
    }

    #[test]
    fn the_smaller_claim_stands(rt: HostRuntime) -> Result<(), Fail> {
        let mut book = opened(rt.alloc(), CHAIN)?;
        assert!(rt; entered(&mut book, LARGER)? == 4);
        assert!(rt; entered(&mut book, PAPER)? == 3);
        assert!(rt; entered(&mut book, LARGER)? == 3);
        assert!(rt; delay_of(&book) == 3);
        Ok(())
    }

    #[test]
    fn a_verdict_is_refused_after_an_edit(rt: HostRuntime) -> Result<(), Fail> {
        let mut book = opened(rt.alloc(), CHAIN)?;
        let verdict = judged(&book, PAPER)?;
        assert!(rt; book.open(rt.alloc(), CHAIN)?);
        assert_eq!(rt; refusal_of(book.enter(verdict)), told(22, 0, 0));
        assert!(rt; delay_of(&book) == 0);
        Ok(())
    }

    #[test]
    fn quotes_are_kept_by_the_same_chain(rt: HostRuntime) -> Result<(), Fail> {
        let mut book = opened(rt.alloc(), CHAIN)?;
        let _ = entered(&mut book, PAPER)?;
        assert!(rt; book.open(rt.alloc(), SAME_CHAIN)?);
        assert!(rt; delay_of(&book) == 3);
        assert_eq!(rt;
            refusal_of(book.open(rt.alloc(), b"relay rate hold\n")),
            told(1, 2, 0)
        );
        assert!(rt; delay_of(&book) == 3);
        Ok(())
    }

    #[test]
    fn quotes_are_withdrawn_by_another_chain(rt: HostRuntime) -> Result<(), Fail> {
        let mut book = opened(rt.alloc(), CHAIN)?;
        let _ = entered(&mut book, PAPER)?;
        assert!(rt; !book.open(rt.alloc(), OTHER_CHAIN)?);
        assert!(rt; delay_of(&book) == 0);
        Ok(())
    }

    #[test]
    fn too_few_sums_stay_as_they_were(rt: HostRuntime) -> Result<(), Fail> {
        let book = opened(rt.alloc(), CHAIN)?;
        let mut sums = [5i64; 7];
        assert_eq!(rt; refusal_of(book.judge(PAPER, &mut sums)), told(8, 0, 0));
        assert!(rt; sums[0] == 5 && sums[6] == 5);
        Ok(())
    }

    #[test]
    fn sums_stand_after_a_pass(rt: HostRuntime) -> Result<(), Fail> {
        let book = opened(rt.alloc(), CHAIN)?;
        let mut sums = [5i64; 9];
        assert_eq!(rt; refusal_of(book.judge(PAPER, &mut sums)), told(0, 0, 0));
        assert!(rt;
            sums[0] == 0
                && sums[1] == 10
                && sums[5] == 0
                && sums[6] == -10
                && sums[7] == 0
                && sums[8] == 5
        );
        Ok(())
    }

    #[test]
    fn sums_of_a_refused_place_stand(rt: HostRuntime) -> Result<(), Fail> {
        let book = opened(rt.alloc(), CHAIN)?;
        let mut sums = [5i64; 9];
        assert_eq!(rt; refusal_of(book.judge(MISSING, &mut sums)), told(6, 1, 1));
        assert!(rt; sums[0] == -8 && sums[1] == 10 && sums[6] == -2 && sums[8] == 5);
        assert_eq!(rt; refusal_of(book.judge(TOO_LOW, &mut sums)), told(7, 1, 0));
        assert!(rt; sums[0] == 0 && sums[1] == 10 && sums[6] == -10 && sums[8] == 5);
        Ok(())
    }

    #[test]
    fn quotes_just_fit(rt: HostRuntime) -> Result<(), Fail> {
        let mut book = opened(rt.alloc(), CHAIN)?;
        let _ = entered(&mut book, PAPER)?;
        let mut short = [7u8; 23];
        assert_eq!(rt; refusal_of(book.write_quotes(&mut short)), told(8, 0, 0));
        assert!(rt; short[0] == 7 && short[22] == 7);
        let mut out = [7u8; 25];
        assert!(rt; book.write_quotes(&mut out)? == 24);
        assert!(rt; out[0] == b'g' && out[23] == b'\n' && out[24] == 7);
        Ok(())
    }

    #[test]
    fn a_refusal_just_fits(rt: HostRuntime) -> Result<(), Fail> {
        let mut short = [7u8; 27];
        assert_eq!(rt;
            refusal_of(write_refusal(BookFault::NoChain, &mut short)),
            told(8, 0, 0)
        );
        let mut out = [7u8; 28];
        assert!(rt; write_refusal(BookFault::NoChain, &mut out)? == 28);
        assert!(rt; &out[21..28] == b"21 0 0\n".as_slice());
        Ok(())
    }

    #[test]
    fn a_row_is_written_term_by_term(rt: HostRuntime) -> Result<(), Fail> {
        let book = opened(rt.alloc(), CHAIN)?;
        let mut out = [7u8; 64];
        assert!(rt; book.write_row(Goal::Delay, 0, 1, 2, &mut out)? == 35);
        assert!(rt; &out[0..36] == b"2 1 -10\n2 2 10\n2 5 1\n2 6 -1\n2 0 20\n\x07".as_slice());
        assert!(rt; book.write_row(Goal::Delay, 0, 1, 0, &mut out)? == 18);
        Ok(())
    }

    #[test]
    fn a_row_has_to_be_there(rt: HostRuntime) -> Result<(), Fail> {
        let book = opened(rt.alloc(), CHAIN)?;
        let mut out = [7u8; 9];
        assert_eq!(rt;
            refusal_of(book.write_row(Goal::Delay, 0, 1, 16, &mut out)),
            told(5, 0, 0)
        );
        assert_eq!(rt;
            refusal_of(book.write_row(Goal::Delay, 0, 2, 0, &mut out)),
            told(5, 0, 0)
        );
        assert_eq!(rt;
            refusal_of(book.write_row(Goal::Delay, 1, 1, 1, &mut out)),
            told(5, 0, 0)
        );
        assert_eq!(rt;
            refusal_of(book.write_row(Goal::Backlog, 1, 1, 9, &mut out)),
            told(5, 0, 0)
        );
        assert_eq!(rt;
            refusal_of(book.write_row(Goal::Backlog, 1, 1, 8, &mut out)),
            told(8, 0, 0)
        );
        Ok(())
    }

    #[test]
    fn a_goal_has_to_name_something(rt: HostRuntime) -> Result<(), Fail> {
        let book = opened(rt.alloc(), CHAIN)?;
        assert_eq!(rt; refusal_of(book.quote(Goal::Delay, 1)), told(5, 0, 0));
        assert_eq!(rt; refusal_of(book.quote(Goal::Backlog, 0)), told(5, 0, 0));
        assert_eq!(rt; refusal_of(book.quote(Goal::Backlog, 2)), told(5, 0, 0));
        assert_eq!(rt; refusal_of(book.quote(Goal::Backlog, 1)), told(0, 0, 0));
        Ok(())
    }

    #[test]
    fn a_shown_word_is_a_part_of_the_text(rt: HostRuntime) -> Result<(), Fail> {
        let text = b"a bc\n\nd  e";
        assert!(rt; show(text, 1, 2).ok_or("no word")? == b"bc".as_slice());
        assert!(rt; show(text, 3, 2).ok_or("no word")?.is_empty());
        assert!(rt;
            show(text, 2, 1).is_none()
                && show(text, 1, 3).is_none()
                && show(text, 0, 1).is_none()
                && show(text, 1, 0).is_none()
        );
        Ok(())
    }

    // Opening is an edit: the million and first is refused, before its text is looked at.
    #[test]
    fn a_million_edits_are_enough(rt: HostRuntime) -> Result<(), Fail> {
        let mut book = Book::new();
        for _ in 0..1_000_000u32 {
            book.open(rt.alloc(), CHAIN)?;
        }
        assert!(rt; entered(&mut book, PAPER)? == 3);
        assert_eq!(rt; refusal_of(book.open(rt.alloc(), b"")), told(26, 0, 0));
        assert!(rt; delay_of(&book) == 3);
        Ok(())
    }

    fn put(page: Page) -> usize {
        let mut out = [46u8; 8];
        page.put(&mut out).unwrap_or(9)
    }

    fn terms(row: Row) -> usize {
        row.terms().len()
    }

    fn lines(curve: ArrivalCurve) -> usize {
        curve.lines().len()
    }

    fn service_lines(relay: Relay) -> usize {
        relay.curve.lines().len()
    }

    fn arrival_lines(stream: Stream) -> usize {
        lines(stream.curve)
    }

    fn relays(draft: RelayDraft) -> usize {
        draft.len()
    }

    fn streams(draft: StreamDraft) -> usize {
        draft.len()
    }

    fn is_empty(draft: Draft) -> bool {
        match draft {
            Draft::Empty => true,
            _ => false,
        }
    }

    // Each of these is copied where it is passed on, so that it can be passed on again.
    #[test]
    fn tables_are_copied(rt: HostRuntime) -> Result<(), Fail> {
        let page = Page::empty();
        assert!(rt; put(page) == 0 && put(page) == 0);
        let row = Row::blank();
        assert!(rt; terms(row) == 0 && terms(row) == 0);
        let draft = read_draft(SAME_CHAIN)?;
        assert!(rt; streams(draft) == 1 && streams(draft) == 1);
        let none = RelayDraft::empty();
        assert!(rt; relays(none) == 0 && relays(none) == 0);
        let empty = Draft::Empty;
        assert!(rt; is_empty(empty) && is_empty(empty));
        Ok(())
    }

    #[test]
    fn curves_are_copied(rt: HostRuntime) -> Result<(), Fail> {
        let draft = read_draft(SAME_CHAIN)?;
        let stream = *draft.streams().first().ok_or("no stream")?;
        assert!(rt; arrival_lines(stream) == 2 && arrival_lines(stream) == 2);
        let curve = stream.curve;
        assert!(rt; lines(curve) == 2 && lines(curve) == 2);
        let relay = Relay {
            curve: ServiceCurve::single(ServiceLine { rate: 1, hold: 0 }),
        };
        assert!(rt; service_lines(relay) == 1 && service_lines(relay) == 1);
        Ok(())
    }

    // Asks no more of the values than that they can be cloned.
    fn clone_of<T: Clone, const N: usize>(few: &Few<T, N>) -> Result<Few<T, N>, AllocError> {
        few.clone()
    }

    #[test]
    fn tables_are_cloned(rt: HostRuntime) -> Result<(), Fail> {
        let mut few: Few<u8, 4> = Few::one(7);
        few.push(9);
        assert!(rt; clone_of(&few)?.as_slice() == b"\x07\x09".as_slice());
        assert!(rt; few.copied()?.as_slice() == b"\x07\x09".as_slice());
        Ok(())
    }
}
