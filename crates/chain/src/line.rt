// The lines of which curves are made, each within its limits.
ghost use Rattle.std.specs.Prelude.{◌≤◌};

// At most burst + rate × d bytes enter in d ticks.
#[derive(Clone, Copy)]
pub struct ArrivalLine {
    pub burst: u32,
    pub rate: u32,
    ghost some: { 1 ≤ burst },
    ghost burst_limit: { burst ≤ 16777216 },
    ghost rate_limit: { rate ≤ 1048576 },
}

// At least rate × d − hold bytes leave in d ticks of work.
#[derive(Clone, Copy)]
pub struct ServiceLine {
    pub rate: u32,
    pub hold: u32,
    ghost some: { 1 ≤ rate },
    ghost rate_limit: { rate ≤ 1048576 },
    ghost hold_limit: { hold ≤ 16777216 },
}
