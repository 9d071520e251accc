// What a paper states on its goal line.
ghost use Rattle.std.specs.Prelude.{◌≤◌};

// The claim, and by how much the sums of its rows are scaled.
#[derive(Clone, Copy)]
pub struct Stated {
    pub claim: u32,
    pub scale: u32,
    ghost some_claim: { 1 ≤ claim },
    ghost claim_limit: { claim ≤ 16777216 },
    ghost some_scale: { 1 ≤ scale },
    ghost scale_limit: { scale ≤ 1048576 },
}
