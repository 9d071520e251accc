// The lines of a chain's text, each by itself.
ghost use Rattle.std.specs.Prelude.{◌≡◌};
ghost use Rattle.chain.specs.Lines.{relay_names, stream_names, service_in, arrival_in, relay_line, stream_line};
ghost use Rattle.text.specs.Continue.{ok_as};
ghost use Rattle.chain.specs.Parsed.{relay_line_of, stream_line_of};
ghost use Rattle.chain.specs.Plan.{sends, serves};

use crate::line::{ArrivalLine, ServiceLine};
use crate::row::{RelayRow, StreamRow};
use text::fault::Fault;
use text::line::Line;

// The names above the relays.
pub fn relay_names(line: Line) -> Result<(), Fault>
    ensures { result ≡ relay_names line.entry.number line.entry.bytes.now }
{
    line.expect_names(&["relay", "rate", "hold"])
}

// The names above the streams.
pub fn stream_names(line: Line) -> Result<(), Fault>
    ensures { result ≡ stream_names line.entry.number line.entry.bytes.now }
{
    line.expect_names(&["stream", "from", "to", "burst", "rate"])
}

// Each limit stands where it is stated; a function for all of them would take value, word and two bounds, four numbers in a row.
fn service_in(line: u32, rate: u32, hold: u32) -> Result<ServiceLine, Fault>
    ensures { ok_as serves result ≡ service_in line rate hold }
{
    if !(1..=1_048_576).contains(&rate) {
        return Err(Fault::OutOfLimits { line, word: 2 });
    }
    if hold > 16_777_216 {
        return Err(Fault::OutOfLimits { line, word: 3 });
    }
    Ok(ServiceLine { rate, hold })
}

fn arrival_in(line: u32, burst: u32, rate: u32) -> Result<ArrivalLine, Fault>
    ensures { ok_as sends result ≡ arrival_in line burst rate }
{
    if !(1..=16_777_216).contains(&burst) {
        return Err(Fault::OutOfLimits { line, word: 4 });
    }
    if rate > 1_048_576 {
        return Err(Fault::OutOfLimits { line, word: 5 });
    }
    Ok(ArrivalLine { burst, rate })
}

// A line of a relay.
pub fn relay_row(line: Line) -> Result<RelayRow, Fault>
    ensures { ok_as relay_line_of result ≡ relay_line line.entry.number line.entry.bytes.now }
{
    line.expect_words(3)?;
    let number = line.number_at(1)?;
    let rate = line.number_at(2)?;
    let hold = line.number_at(3)?;
    Ok(RelayRow {
        at: line.number,
        number,
        line: service_in(line.number, rate, hold)?,
    })
}

// A line of a stream.
pub fn stream_row(line: Line) -> Result<StreamRow, Fault>
    ensures { ok_as stream_line_of result ≡ stream_line line.entry.number line.entry.bytes.now }
{
    line.expect_words(5)?;
    let number = line.number_at(1)?;
    let from = line.number_at(2)?;
    let to = line.number_at(3)?;
    let burst = line.number_at(4)?;
    let rate = line.number_at(5)?;
    Ok(StreamRow {
        at: line.number,
        number,
        from,
        to,
        line: arrival_in(line.number, burst, rate)?,
    })
}
