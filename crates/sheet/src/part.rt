// The part of a chain that leads to one relay.
ghost use Rattle.std.specs.Prelude.{◌≤◌, length};
ghost use Rattle.chain.specs.Views.{relays_of};

use chain::chain::Chain;

pub mod count;
pub mod cut;
pub mod make;
pub mod relays;
pub mod rows;
pub mod stop;
pub mod streams;

// Relays 1 to `last`, and the streams that begin at or before it, each cut after it.
#[derive(Clone, Copy)]
pub struct Part<'a> {
    chain: &'a Chain,
    last: u32,
    ghost some: { 1 ≤ last },
    ghost within: { last ≤ length (relays_of chain.now) },
}
