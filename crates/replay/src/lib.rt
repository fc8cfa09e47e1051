// The replay ring (runtime.rs, `replay` and `replay_cursor`): owner, action id and receipt number of the last 32 admitted orders.
// Promises, by the list of the entries from the newest: an empty ring has none; a push puts its entry first and keeps 32; a search
// answers as 01's `find_entry` does on that list. Rests on `model` for the records and `rules` for `find_entry`.
#![tactic(auto)]

ghost use Rattle.std.specs.Prelude.{◌≡◌};
ghost use Rattle.rules.specs.Admission.{find_entry};
ghost use Rattle.replay.specs.Ring.{list_of, is_hit, receipt_of};
ghost use Rattle.replay.specs.Promises.{Sound, Emptied, Pushed};

use model::{Presence, Replay, ReplaySlot};

// Slots from 0 on are written in turn, around the ring; the cursor is the next one.
#[derive(Clone, Copy)]
pub struct ReplayRing {
    pub entries: [ReplaySlot; 32],
    pub cursor: usize,
}

// Whether a slot holds the entry of this owner and action id.
fn is_hit(slot: ReplaySlot, owner: u64, action_id: u64) -> bool
    ensures { result ≡ is_hit owner action_id slot }
{
    let presence = slot.presence;
    let entry = slot.replay;
    match presence {
        Presence::Absent => false,
        Presence::Present => entry.owner == owner && entry.action_id == action_id,
    }
}

impl ReplayRing {
    pub fn empty() -> Self
        ensures { Emptied result }
    {
        let blank = ReplaySlot::blank();
        Self {
            entries: [blank; 32],
            cursor: 0,
        }
    }

    // The ring with one more entry, in the place of the oldest where it is full.
    pub fn push(mut self, entry: Replay) -> Self
        requires { Sound self }
        ensures { Pushed self entry result }
    {
        let cursor = self.cursor;
        let next = (cursor + 1) % 32;
        self.entries[cursor] = ReplaySlot {
            presence: Presence::Present,
            replay: entry,
        };
        self.cursor = next;
        self
    }

    // The receipt number of the newest entry with this owner and action id.
    pub fn find(self, owner: u64, action_id: u64) -> Option<u64>
        requires { Sound self }
        ensures { result ≡ receipt_of (find_entry owner action_id (list_of self)) }
    {
        let cursor = self.cursor;
        for i in 0..32 {
            let slot = self.entries[(cursor + 31 - i) % 32];
            if is_hit(slot, owner, action_id) {
                return Some(slot.replay.receipt);
            }
        }
        None
    }
}
