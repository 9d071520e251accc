// Where text is gathered before it is copied out.
ghost use Rattle.std.specs.Prelude.{◌≤◌, length};
ghost use Rattle.few.specs.Values.{items};

use few::Few;

// Lent memory is too short.
#[derive(Clone, Copy, Debug, PartialEq, Eq)]
pub struct Short;

// A text of at most 2,048 bytes. It is gathered here first, because lent memory stays untouched when it is too short for all of it.
#[derive(Clone, Copy)]
pub struct Page {
    pub(crate) text: Few<u8, 2048>,
    ghost room: { length (items text) ≤ 2048 },
}
