// The lines of relays.
ghost use Rattle.std.specs.Prelude.{◌≤◌, length, IfOk};

use chain::line::ServiceLine;
use chain::stream::Relay;

// One line of a relay, by the number of the relay.
#[derive(Clone, Copy)]
pub struct RelayLine {
    pub relay: u32,
    pub line: ServiceLine,
}

// The line at an index, from 0, among the lines of relays; else how far past them all the index is.
pub fn find_line(relays: &[Relay], index: u32) -> Result<RelayLine, u32>
    requires { length relays.now ≤ 8 }
    ensures { IfOk result (λ at. (1 ≤ at.relay) × (at.relay ≤ length relays.now)) }
{
    let mut left = index;
    for (i, relay) in relays.iter().enumerate() {
        let lines = relay.curve.lines();
        if let Some(line) = lines.get(left as usize) {
            return Ok(RelayLine {
                relay: i as u32 + 1,
                line: *line,
            });
        }
        left -= lines.len() as u32;
    }
    Err(left)
}
