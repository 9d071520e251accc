// What a line of a paper says.
ghost use Rattle.std.specs.Prelude.{◌≤◌};

// So many times a row of a place.
#[derive(Clone, Copy)]
pub struct Entry {
    pub place: u32,
    pub row: u32,
    pub times: u32,
    ghost some: { 1 ≤ times },
    ghost limit: { times ≤ 1048576 },
}
