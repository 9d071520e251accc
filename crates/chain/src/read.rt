// Reads a chain's text.
ghost use Rattle.std.specs.Prelude.{◌≡◌, ◌≤◌, length};
ghost use Rattle.few.specs.Values.{items};
ghost use Rattle.chain.specs.Drafts.{relay_plans, stream_plans};
ghost use Rattle.text.specs.Continue.{ok_as, KeptOk};
ghost use Rattle.chain.specs.Texts.{Stage, relay_step, stream_step, chain_step, read_chain, stage_of, draft_plan};

use crate::draft::{Draft, RelayDraft, StreamDraft};
use crate::parse::{relay_names, relay_row, stream_names, stream_row};
use text::fault::Fault;
use text::line::Line;
use text::lines::{LineSink, Lines, read_lines};

// A line where a relay could stand; one that begins with `stream` has the names above the streams.
fn after_relay(relays: RelayDraft, line: Line) -> Result<Draft, Fault>
    ensures { ok_as stage_of result ≡ relay_step (relay_plans relays) line.entry.number line.entry.bytes.now }
{
    if line.begins_with(b"stream") {
        stream_names(line)?;
        if relays.relays().is_empty() {
            return Err(Fault::NoRelay { line: line.number });
        }
        return Ok(Draft::Streams(StreamDraft::new(relays)));
    }
    let more = relays.with(relay_row(line)?)?;
    Ok(Draft::Relays(more))
}

fn after_stream(streams: StreamDraft, line: Line) -> Result<Draft, Fault>
    ensures { ok_as stage_of result ≡ stream_step (relay_plans streams.relays) (stream_plans streams) line.entry.number line.entry.bytes.now }
{
    let more = streams.with(stream_row(line)?)?;
    Ok(Draft::Streams(more))
}

impl LineSink for Draft {
    ghost model = { Stage };

    ghost view = { stage_of };

    ghost step = { chain_step };

    fn take_line(&mut self, line: Line) -> Result<(), Fault> {
        match *self {
            Draft::Empty => {
                relay_names(line)?;
                *self = Draft::Relays(RelayDraft::empty());
            }
            Draft::Relays(relays) => *self = after_relay(relays, line)?,
            Draft::Streams(streams) => *self = after_stream(streams, line)?,
        }
        Ok(())
    }
}

// Reads a chain's text, which has to hold relays and at least the stop stream, or says what is wrong with it first.
pub fn read_draft(text: &[u8]) -> Result<StreamDraft, Fault>
    ensures plan { ok_as draft_plan result ≡ read_chain text.now }
    ensures some { KeptOk (λ d. 1 ≤ length (items d.table)) result }
{
    let lines = Lines::new(text)?;
    let mut draft = Draft::Empty;
    let line = read_lines(&mut draft, lines)?;
    let Draft::Streams(streams) = draft else {
        return Err(Fault::EndsEarly { line });
    };
    if streams.streams().is_empty() {
        return Err(Fault::NoStream { line });
    }
    Ok(streams)
}
