// The chain record, and making it of a draft.
ghost use Rattle.std.specs.Prelude.{◌≡◌, ◌≤◌, true, length, IfOk, vec_len, vec_capacity};
ghost use Rattle.chain.specs.Keeps.{lie_within, stops_at_end};

use crate::draft::StreamDraft;
use crate::stream::{Relay, Stream};
use crate::table::StreamTable;
use std::alloc::{AllocError, Global};

// Stream 1 is the stop stream. The tables keep room for the most relays and streams that a chain may have.
#[derive(Drop)]
pub struct Chain {
    relays: Vec<Relay>,
    streams: StreamTable,
    ghost some_relay: { 1 ≤ vec_len relays },
    ghost few_relays: { vec_len relays ≤ 8 },
    ghost relay_room: { 8 ≤ vec_capacity relays },
    ghost some_stream: { 1 ≤ vec_len streams.table },
    ghost few_streams: { vec_len streams.table ≤ 16 },
    ghost stream_room: { 16 ≤ vec_capacity streams.table },
    ghost lies: { lie_within (vec_len relays) streams.table.items ≡ true },
    ghost stops: { stops_at_end (vec_len relays) streams.table.items ≡ true },
}

// A table of the items, with room for so many. Only this asks for memory: all the room that a chain may ever need.
fn table_of<T: Copy>(heap: Global, room: usize, items: &[T]) -> Result<Vec<T>, AllocError>
    requires { length items.now ≤ room }
    ensures items { IfOk result (λ v. v.items ≡ items.now) }
    ensures len { IfOk result (λ v. vec_len v ≡ length items.now) }
    ensures room { IfOk result (λ v. room ≤ vec_capacity v) }
{
    let mut table = Vec::with_capacity(heap, room)?;
    table.extend_from_slice(items)?;
    Ok(table)
}

impl Chain {
    ghost use Rattle.few.specs.Values.{items};
    ghost use Rattle.chain.specs.Plan.{plan_of};
    ghost use Rattle.chain.specs.Texts.{draft_plan};
    ghost use Rattle.chain.specs.Views.{relays_of, streams_of};

    // Makes a chain of a draft.
    pub fn build(heap: Global, draft: &StreamDraft) -> Result<Chain, AllocError>
        requires { 1 ≤ length (items draft.now.table) }
        ensures { IfOk result (λ c. plan_of c ≡ draft_plan draft.now) }
    {
        let relays = table_of(heap, 8, draft.relays.relays())?;
        let table = table_of(heap, 16, draft.streams())?;
        Ok(Chain {
            relays,
            streams: StreamTable { table },
        })
    }

    pub fn relays(&self) -> &[Relay]
        ensures value { result.now ≡ relays_of self.now }
        ensures some { 1 ≤ length result.now }
        ensures few { length result.now ≤ 8 }
    {
        self.relays.as_slice()
    }

    pub fn streams(&self) -> &[Stream]
        ensures value { result.now ≡ streams_of self.now }
        ensures some { 1 ≤ length result.now }
        ensures few { length result.now ≤ 16 }
        ensures lies { lie_within (length (relays_of self.now)) result.now ≡ true }
        ensures stops { stops_at_end (length (relays_of self.now)) result.now ≡ true }
    {
        self.streams.streams()
    }
}
