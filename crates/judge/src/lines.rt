// The lines of a paper that are still to be weighed.
ghost use Rattle.std.specs.Prelude.{◌≤◌, length};

use text::lines::Lines;

// What is left of a text within its limit.
#[derive(Clone, Copy)]
pub struct PaperLines<'a> {
    pub lines: Lines<'a>,
    ghost short: { length lines.text.now ≤ 65536 },
}
