// The table of a chain's streams, in the order of their numbers: by a rule of the project a plain struct, and the chain around it
// says what it keeps.
ghost use Rattle.std.specs.Prelude.{◌≡◌};

use crate::stream::Stream;

#[derive(Drop)]
pub struct StreamTable {
    pub table: Vec<Stream>,
}

impl StreamTable {
    pub fn streams(&self) -> &[Stream]
        ensures { result.now ≡ self.now.table.items }
    {
        self.table.as_slice()
    }
}
