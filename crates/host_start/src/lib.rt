// A start over lent words (crate `runtime`, "start"): capabilities are listed one by one, then a start checks them where they stand and makes the words
// those of a runtime. Promises: whatever the words hold, as many and the same first word; the runtime is the one that the rules start with what is
// listed, and nothing stays listed. Rests on `decide_start` for the checks and on `layout` for the words.
#![tactic(auto)]

ghost use Rattle.std.specs.Prelude.{ℕ, ◌≤◌, ◌<◌, false, List, [], ◌∷◌, ◌++◌, ◌≡◌, eqb, get_or, take};
ghost use Rattle.model.specs.Records.{no_capability};
ghost use Rattle.model.specs.declared.Capability.{Capability};
ghost use Rattle.model.specs.Soundness.{axis_used, id_taken};
ghost use Rattle.rules.specs.Protocol.{refused_record, refused_start, start as start_rule};
ghost use Rattle.decide_start.specs.Starts.{Listing, start_on, refusal_of, Fixes};
ghost use Rattle.layout.specs.Layout.{Long, listing_in};
ghost use Rattle.host_start.specs.Starts.{ListsOne, Unlists, Clears, Copies, Makes};

use decide_start::{first_trial, is_bad, numbers_of};
use layout::{
    listed_at, listed_count, put_capability, put_falling, put_fixed, put_listed, put_listed_count,
    put_numbers, put_slot, put_starting, put_waiting,
};
use model::{Capability, Config};
use runtime::starting_on;
use state::{Answer, Fixed};

// One more capability for the next start.
pub fn list(state: &mut [u64], capability: Capability)
    requires { Long state.old }
    ensures { ListsOne capability state.old state.new }
{
    let count = listed_count(state);
    if count < 17 {
        put_listed(state, count, capability);
        put_listed_count(state, count + 1);
    }
}

// Nothing is listed.
pub fn unlist(state: &mut [u64])
    requires { Long state.old }
    ensures { Unlists state.old state.new }
{
    put_listed_count(state, 0);
}

// the checks -------------------------------------------------------------------------------------------------------------

fn has_id(state: &[u64], at: usize, id: u16) -> bool
    requires { Long state.now × (at < 17) }
    ensures { result ≡ eqb (get_or (listing_in state.now).records at no_capability).id id }
{
    let capability = listed_at(state, at);
    capability.id == id
}

// Whether one of the first `count` records has this id.
fn id_taken(state: &[u64], count: usize, id: u16) -> bool
    requires { Long state.now × (count ≤ 17) }
    ensures { result ≡ id_taken (take count (listing_in state.now).records) id }
{
    let mut i: usize = 0;
    while i < count {
        if has_id(state, i, id) {
            return true;
        }
        i = i + 1;
    }
    false
}

fn names_axis(state: &[u64], at: usize, axis: u8) -> bool
    requires { Long state.now × (at < 17) }
    ensures { result ≡ eqb (get_or (listing_in state.now).records at no_capability).resource axis }
{
    let capability = listed_at(state, at);
    capability.resource == axis
}

// Whether one of the first `count` records names this axis.
fn axis_used(state: &[u64], count: usize, axis: u8) -> bool
    requires { Long state.now × (count ≤ 17) }
    ensures { result ≡ axis_used (take count (listing_in state.now).records) axis }
{
    let mut i: usize = 0;
    while i < count {
        if names_axis(state, i, axis) {
            return true;
        }
        i = i + 1;
    }
    false
}

// Each record in list order: its own conditions, then its id against the earlier ones.
fn refused_record(state: &[u64], count: usize) -> Answer
    requires { Long state.now × (count ≤ 17) }
    ensures { refusal_of result ≡ refused_record [] (take count (listing_in state.now).records) }
{
    let mut i: usize = 0;
    while i < count {
        let capability = listed_at(state, i);
        let sound = capability.is_sound();
        if !sound {
            return Answer::InvalidCapability;
        }
        if id_taken(state, i, capability.id) {
            return Answer::DuplicateCapability;
        }
        i = i + 1;
    }
    Answer::Item
}

// The boot number, the configuration, then the records; `Item` where all is well.
fn refused_start(state: &[u64], config: Config, boot_id: u64) -> Answer
    requires { Long state.now }
    ensures { (l : List Capability) (time flags : ℕ) → Listing (listing_in state.now) l → refusal_of result ≡ refused_start (start_on config l boot_id time flags) }
{
    let count = listed_count(state);
    let bad = is_bad(config, count);
    if boot_id == 0 {
        return Answer::InvalidBootId;
    }
    if bad {
        return Answer::InvalidConfig;
    }
    refused_record(state, count)
}

// The axes that the records name.
fn mark_resources(state: &[u64], count: usize) -> [bool; 8]
    requires { Long state.now × (count ≤ 17) }
    ensures { (axis : ℕ) → axis < 8 → get_or result axis false ≡ axis_used (take count (listing_in state.now).records) axis }
{
    let mut marks = [false; 8];
    let mut i: u8 = 0;
    while i < 8 {
        marks[i as usize] = axis_used(state, count, i);
        i = i + 1;
    }
    marks
}

// the words --------------------------------------------------------------------------------------------------------------

// Nothing of an earlier life is left.
pub fn clear(state: &mut [u64])
    requires { Long state.old }
    ensures { Clears state.old state.new }
{
    let mut i: usize = 1;
    while i < 2220 {
        state[i] = 0;
        i = i + 1;
    }
}

// The records that are listed become the runtime's.
fn copy_records(state: &mut [u64])
    requires { Long state.old }
    ensures { Copies state.old state.new }
{
    let mut i: usize = 0;
    while i < 17 {
        let capability = listed_at(state, i);
        put_capability(state, i, capability);
        i = i + 1;
    }
}

// What nothing alters afterwards. A list above 16 is refused, and its count is not kept.
fn fixed_of(state: &[u64], config: Config, boot_id: u64) -> Fixed
    requires { Long state.now }
    ensures { Fixes config (listing_in state.now) boot_id result × (result.count < 17) }
{
    let listed = listed_count(state);
    let count = if listed < 17 { listed } else { 16 };
    let used = mark_resources(state, count);
    Fixed {
        config: config,
        boot_id: boot_id,
        count: count,
        used: used,
    }
}

// A start takes what is listed, and leaves nothing of it. Where every check has passed, the first used axis is tried.
pub fn new(state: &mut [u64], config: Config, boot_id: u64, time: u64, flags: u32) -> Answer
    requires { Long state.old }
    ensures { (l : List Capability) → Listing (listing_in state.old) l → Makes state.old state.new result (start_rule (start_on config l boot_id time flags)) }
{
    let checked = refused_start(state, config, boot_id);
    let fixed = fixed_of(state, config, boot_id);
    let used = fixed.used;
    let trial = first_trial(checked, used);
    let starting = trial.starting;
    let waiting = trial.waiting;
    let answer = trial.answer;
    clear(state);
    copy_records(state);
    put_fixed(state, fixed);
    put_numbers(state, numbers_of(config, time, flags));
    put_slot(state, 64);
    put_falling(state, starting_on(trial.axis));
    put_starting(state, starting);
    put_waiting(state, waiting);
    unlist(state);
    answer
}
