// The text of a row of any sheet.
use crate::write::add_term_line;
use sheet::row::{Row, Term};
use sheet::sheet::Sheet;
use text::page::Page;

// A line for each term of a row and one for its right side.
fn term_lines<S: Sheet>(sheet: &S, place: u32, number: u32) -> Option<Page> {
    let mut row = Row::blank();
    if !sheet.row(place, number, &mut row) {
        return None;
    }
    let mut page = Page::empty();
    for term in row.terms() {
        add_term_line(&mut page, number, *term);
    }
    let right = Term {
        unknown: 0,
        times: row.right,
    };
    add_term_line(&mut page, number, right);
    Some(page)
}

// The row with a number at a place, or the names above rows at 0; nothing where there is no such place or row.
pub fn row_page<S: Sheet>(sheet: &S, place: u32, number: u32) -> Option<Page> {
    if !(1..=sheet.places()).contains(&place) {
        return None;
    }
    if number == 0 {
        let mut page = Page::empty();
        page.add(b"row unknown times\n");
        return Some(page);
    }
    term_lines(sheet, place, number)
}
