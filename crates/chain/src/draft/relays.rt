// The relays of a draft.
ghost use Rattle.std.specs.Prelude.{◌≡◌, ◌≤◌, [], length};
ghost use Rattle.few.specs.Values.{items};
ghost use Rattle.text.specs.Continue.{ok_as};

use crate::curve::ServiceCurve;
use crate::draft::place_of;
use crate::line::ServiceLine;
use crate::row::RelayRow;
use crate::stream::Relay;
use few::Few;
use text::fault::Fault;

// The relays so far.
#[derive(Clone, Copy)]
pub struct RelayDraft {
    pub(crate) table: Few<Relay, 8>,
    ghost few: { length (items table) ≤ 8 },
}

impl RelayDraft {
    ghost use Rattle.chain.specs.Drafts.{place_relay, relay_plans};
    ghost use Rattle.chain.specs.Parsed.{relay_line_of};

    pub fn empty() -> RelayDraft
        ensures { relay_plans result ≡ [] }
    {
        let filler = Relay {
            curve: ServiceCurve::single(ServiceLine { rate: 1, hold: 0 }),
        };
        RelayDraft {
            table: Few::none(filler),
        }
    }

    // How many relays there are.
    pub fn len(&self) -> usize
        ensures plans { result ≡ length (relay_plans self.now) }
        ensures count { result ≡ length (items self.now.table) }
        ensures few { result ≤ 8 }
    {
        self.table.len()
    }

    pub fn relays(&self) -> &[Relay]
        ensures items { result.now ≡ items self.now.table }
        ensures few { length result.now ≤ 8 }
    {
        self.table.as_slice()
    }

    // A further line of the last relay, or the first of the next. What the drafts of relays and streams share is `place_of`; what a
    // line makes of each differs, as they keep other things.
    pub fn with(mut self, row: RelayRow) -> Result<RelayDraft, Fault>
        ensures { ok_as relay_plans result ≡ place_relay (relay_plans self) (relay_line_of row) }
    {
        let k = place_of(row.number, self.len(), row.at)?;
        if k < self.len() {
            let curve = self.relays()[k].curve.with(row.at, row.line)?;
            self.table.set(k, Relay { curve });
            return Ok(self);
        }
        let relay = Relay {
            curve: ServiceCurve::single(row.line),
        };
        self.table
            .try_push(relay)
            .map_err(|_| Fault::TooMany { line: row.at })?;
        Ok(self)
    }
}
