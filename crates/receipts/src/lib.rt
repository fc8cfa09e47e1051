// The ring of the last 64 receipts, in constant work and 64 slots: an index of numbers goes by value, and a push answers the slot that the
// new receipt is stored in. Two circles of slot numbers, of the rejections and of the others, stand beside the slots, each oldest first, and
// a word of kind bits says how the two merge into admission order.
// Promises: a push keeps what the rule of 01 says (`keep 64`: a full ring drops its oldest rejection, else its oldest), whatever the slots
// hold; `place_of` and `Ring::receipt` read the receipt at a place from the oldest, or none at or past the count. Each asks the one soundness
// that `empty` sets up and every push keeps. Rests on `keep` of the crate rules, and on nothing but the language and its library besides.
#![tactic(auto)]

ghost use Rattle.std.specs.Prelude.{◌≡◌, ◌<◌, ◌≤◌, length, slice_get};
ghost use Rattle.rules.specs.Receipts.{is_rejected};
ghost use Rattle.receipts.specs.Orders.{wrapped, Top};
ghost use Rattle.receipts.specs.Circles.{no_slots, place_at, longer_by, shorter_by};
ghost use Rattle.receipts.specs.Indexes.{Numbered, Opens, Frees, Pushes, Points};
ghost use Rattle.receipts.specs.Rings.{Kept, receipts_of, Starts, Records};

use model::{Decision, Receipt};

// A circle of 64 places, the oldest at `head`: the slot numbers that stand there are held outside.
#[derive(Clone, Copy)]
pub struct Circle {
    pub head: usize,
    pub count: usize,
}

// A place of a circle, from one below 128.
fn wrap(i: usize) -> usize
    ensures { result ≡ wrapped 64 i }
{
    if i < 64 { i } else { i - 64 }
}

impl Circle {
    fn empty() -> Self
        ensures { result ≡ no_slots }
    {
        Self { head: 0, count: 0 }
    }

    // The place of the one with this many older.
    fn at(self, older: usize) -> usize
        requires { (self.head < 64) × (older ≤ 64) }
        ensures { result ≡ place_at self older }
    {
        wrap(self.head + older)
    }

    // One more at the end.
    fn longer(self) -> Self
        requires { self.count < 64 }
        ensures { result ≡ longer_by self }
    {
        Self {
            head: self.head,
            count: self.count + 1,
        }
    }

    // Without the oldest.
    fn shorter(self) -> Self
        requires { (self.head < 64) × (0 < self.count) }
        ensures { result ≡ shorter_by self }
    {
        Self {
            head: wrap(self.head + 1),
            count: self.count - 1,
        }
    }
}

#[derive(Clone, Copy)]
pub struct Index {
    pub rejected: Circle,
    pub others: Circle,
    // A bit for each receipt kept, the newest lowest: 1 is a rejection.
    pub kinds: u64,
}

// The index with one more receipt, the slot that the receipt goes to, and the place of its circle that the slot's number goes to.
#[derive(Clone, Copy)]
pub struct Pushed {
    pub index: Index,
    pub slot: usize,
    pub place: usize,
}

// The index with room for one more, and a slot that it does not use.
#[derive(Clone, Copy)]
struct Freed {
    index: Index,
    slot: usize,
}

// Where the slot number of a receipt stands: a place of the rejections, or of the others.
#[derive(Clone, Copy)]
pub enum Place {
    Rejected(usize),
    Other(usize),
}

impl Index {
    pub fn empty() -> Self
        ensures { Opens result }
    {
        Self {
            rejected: Circle::empty(),
            others: Circle::empty(),
            kinds: 0,
        }
    }
}

// The highest bit that is set.
fn top(x: u64) -> u64
    requires { 0 < x }
    ensures { Top x result }
{
    1u64 << (63 - u64::leading_zeros(x))
}

// Below the capacity the count is a free slot. A full ring drops its oldest rejection, whose bit is the highest that is set, else its oldest.
fn free(index: Index, oldest_rejected: u8, oldest_other: u8) -> Freed
    requires { Numbered index }
    ensures { Frees index oldest_rejected oldest_other result }
{
    let rejected = index.rejected;
    let others = index.others;
    let count = rejected.count + others.count;
    if count < 64 {
        return Freed {
            index: index,
            slot: count,
        };
    }
    if 0 < rejected.count {
        Freed {
            index: Index {
                rejected: rejected.shorter(),
                others: others,
                kinds: index.kinds - top(index.kinds),
            },
            slot: oldest_rejected as usize,
        }
    } else {
        Freed {
            index: Index {
                rejected: rejected,
                others: others.shorter(),
                kinds: index.kinds,
            },
            slot: oldest_other as usize,
        }
    }
}

// One more receipt, a rejection or not, by the slot numbers at the heads of the two circles: it is the newest of its circle, and its bit is
// the lowest.
pub fn push(index: Index, rejected: bool, oldest_rejected: u8, oldest_other: u8) -> Pushed
    requires { Numbered index }
    ensures { Pushes index rejected oldest_rejected oldest_other result }
{
    let freed = free(index, oldest_rejected, oldest_other);
    let room = freed.index;
    let rejections = room.rejected;
    let others = room.others;
    if rejected {
        Pushed {
            index: Index {
                rejected: rejections.longer(),
                others: others,
                kinds: room.kinds * 2 + 1,
            },
            slot: freed.slot,
            place: rejections.at(rejections.count),
        }
    } else {
        Pushed {
            index: Index {
                rejected: rejections,
                others: others.longer(),
                kinds: room.kinds * 2,
            },
            slot: freed.slot,
            place: others.at(others.count),
        }
    }
}

// Where the receipt at a place from the oldest is noted: its place in its circle is how many of its kind are older.
pub fn place_of(index: Index, at: usize) -> Option<Place>
    requires { Numbered index }
    ensures { Points index at result }
{
    let rejected = index.rejected;
    let others = index.others;
    let count = rejected.count + others.count;
    if count <= at {
        return None;
    }
    let upto = index.kinds >> (count - 1 - at);
    let older = u64::count_ones(upto / 2) as usize;
    if upto % 2 == 1 {
        Some(Place::Rejected(rejected.at(older)))
    } else {
        Some(Place::Other(others.at(at - older)))
    }
}

#[tactic(auto, unfolding(rules::specs::Receipts::is_rejected))]
pub fn is_rejected(decision: Decision) -> bool
    ensures { result ≡ is_rejected decision }
{
    matches!(decision, Decision::Rejected)
}

#[derive(Clone, Copy)]
pub struct Ring {
    pub index: Index,
    // The slot numbers at the places of the two circles.
    pub rejected: [u8; 64],
    pub others: [u8; 64],
    pub slots: [Receipt; 64],
}

impl Ring {
    // A ring that keeps no receipt.
    pub fn empty() -> Self
        ensures { Starts result }
    {
        Self {
            index: Index::empty(),
            rejected: [0; 64],
            others: [0; 64],
            slots: [Receipt::blank(); 64],
        }
    }

    // One more receipt.
    pub fn record(&mut self, receipt: Receipt)
        requires { Kept self.old }
        ensures { Records self.old receipt self.new }
    {
        let rejection = is_rejected(receipt.decision);
        let pushed = push(
            self.index,
            rejection,
            self.rejected[self.index.rejected.head],
            self.others[self.index.others.head],
        );
        self.index = pushed.index;
        self.slots[pushed.slot] = receipt;
        if rejection {
            self.rejected[pushed.place] = pushed.slot as u8;
        } else {
            self.others[pushed.place] = pushed.slot as u8;
        }
    }

    // How many receipts are kept.
    pub fn count(&self) -> usize
        requires { Kept self.now }
        ensures { result ≡ length (receipts_of self.now) }
    {
        self.index.rejected.count + self.index.others.count
    }

    // The receipt at a place from the oldest, if there is one.
    pub fn receipt(&self, index: usize) -> Option<Receipt>
        requires { Kept self.now }
        ensures { result ≡ slice_get (receipts_of self.now) index }
    {
        let slot = match place_of(self.index, index)? {
            Place::Rejected(place) => self.rejected[place],
            Place::Other(place) => self.others[place],
        };
        Some(self.slots[slot as usize])
    }
}
