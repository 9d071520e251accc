// Relays and streams.
use crate::curve::{ArrivalCurve, ServiceCurve};
use crate::stretch::Stretch;

// A relay, by what it lets go (a server with a strict service curve).
#[derive(Clone, Copy)]
pub struct Relay {
    pub curve: ServiceCurve,
}

// A stream, by the relays that it crosses and what may enter of it (a flow).
#[derive(Clone, Copy)]
pub struct Stream {
    pub stretch: Stretch,
    pub curve: ArrivalCurve,
}
