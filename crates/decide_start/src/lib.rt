// A start (runtime.rs, `Runtime::new`): 01's checks in order, the parts of the state that it opens, and which axis is tried next. By value, on the
// first records of the list: 17 of them tell as much as all. Rests on `state` for the parts and the used axes, and on `model` for the checks of a
// record.
#![tactic(auto)]

ghost use Rattle.std.specs.Prelude.{ℕ, ◌<◌, min, cond, true, false, not, ◌&&◌, List, [], ◌∷◌, ◌++◌, ◌≡◌, get_or, take};
ghost use Rattle.model.specs.declared.Capability.{Capability};
ghost use Rattle.model.specs.declared.RuntimeState.TheVariants.{SafeIdle, Estopped};
ghost use Rattle.model.specs.Soundness.{axis_used, id_taken};
ghost use Rattle.rules.specs.Protocol.{bad_config, refused_record, refused_start};
ghost use Rattle.rules.specs.Rules.{meets_estop};
ghost use Rattle.state.specs.Axes.{first_used};
ghost use Rattle.state.specs.State.{waits};
ghost use Rattle.decide_start.specs.Starts.{Listing, start_on, refusal_of, is_refusal, Fixes, numbers_at, ended_by, trial_of, first_trial, is_started, away_by, unheard_by};

use model::{Capability, Config, RuntimeState};
use state::{AfterRecord, Answer, Awaited, Fixed, Mode, Numbers, Waiting, first_used, is_waiting};

// The first records of a list and how many there are; 17 stands for more than 16. A list that long is refused by its length.
#[derive(Clone, Copy)]
pub struct Listed {
    pub records: [Capability; 17],
    pub count: usize,
}

// Where a start stands: axes are tried, it was refused, or there is a runtime.
#[derive(Clone, Copy)]
pub enum Stage {
    Trying,
    Gone,
    Started,
}

// .. and that no axis has failed so far.
#[derive(Clone, Copy)]
pub struct Starting {
    pub stage: Stage,
    pub good: bool,
}

// What a start goes on with: where it then stands, the reply that is awaited, the axis that is tried, and what comes out.
#[derive(Clone, Copy)]
pub struct Trial {
    pub starting: Starting,
    pub waiting: Waiting,
    pub axis: u8,
    pub answer: Answer,
}

// the list ---------------------------------------------------------------------------------------------------------------

impl Listed {
    pub fn empty() -> Self
        ensures { Listing result [] }
    {
        let blank = Capability::blank();
        Self {
            records: [blank; 17],
            count: 0,
        }
    }

    // How many records of a list of this length tell what a start makes of it.
    pub fn enough(length: usize) -> usize
        ensures { result ≡ min 17 length }
    {
        if length < 17 { length } else { 17 }
    }

    // One more at the end.
    pub fn with(self, capability: Capability) -> Self
        ensures { (l : List Capability) → Listing self l → Listing result (l ++ (capability ∷ [])) }
    {
        let mut records = self.records;
        let count = self.count;
        if count < 17 {
            records[count] = capability;
            return Self {
                records: records,
                count: count + 1,
            };
        }
        Self {
            records: records,
            count: 17,
        }
    }
}

// the checks -------------------------------------------------------------------------------------------------------------

// The list is empty or above 16, or one of the six fields is 0.
pub fn is_bad(config: Config, count: usize) -> bool
    ensures { result ≡ bad_config config count }
{
    if count == 0 {
        return true;
    }
    if count > 16 {
        return true;
    }
    if config.watchdog_ms == 0 {
        return true;
    }
    if config.state_ttl_ms == 0 {
        return true;
    }
    if config.max_lease_ms == 0 {
        return true;
    }
    if config.max_valid_for_ms == 0 {
        return true;
    }
    if config.invalid_limit == 0 {
        return true;
    }
    config.estop_mask == 0
}

// Whether one of the first `count` records has this id.
fn id_taken(list: [Capability; 17], count: usize, id: u16) -> bool
    ensures { result ≡ id_taken (take count list) id }
{
    let mut i = 0;
    while i < count && i < 17 {
        let c = list[i];
        if c.id == id {
            return true;
        }
        i += 1;
    }
    false
}

// Whether one of the first `count` records names this axis.
fn axis_used(list: [Capability; 17], count: usize, axis: u8) -> bool
    ensures { result ≡ axis_used (take count list) axis }
{
    let mut i = 0;
    while i < count && i < 17 {
        let c = list[i];
        if c.resource == axis {
            return true;
        }
        i += 1;
    }
    false
}

// Each record in list order: its own conditions, then its id against the earlier ones.
fn refused_record(list: [Capability; 17], count: usize) -> Answer
    ensures { refusal_of result ≡ refused_record [] (take count list) }
{
    let mut i = 0;
    while i < count && i < 17 {
        let c = list[i];
        let sound = c.is_sound();
        let taken = id_taken(list, i, c.id);
        if !sound {
            return Answer::InvalidCapability;
        }
        if taken {
            return Answer::DuplicateCapability;
        }
        i += 1;
    }
    Answer::Item
}

// The boot number, the configuration, then the records; `Item` where all is well.
pub fn refused_start(config: Config, listed: Listed, boot_id: u64) -> Answer
    ensures { (l : List Capability) (time flags : ℕ) → Listing listed l → refusal_of result ≡ refused_start (start_on config l boot_id time flags) }
{
    let list = listed.records;
    let count = listed.count;
    let bad = is_bad(config, count);
    if boot_id == 0 {
        return Answer::InvalidBootId;
    }
    if bad {
        return Answer::InvalidConfig;
    }
    refused_record(list, count)
}

// the parts of the state -------------------------------------------------------------------------------------------------

// The axes that the records name.
fn mark_resources(list: [Capability; 17], count: usize) -> [bool; 8]
    ensures { (axis : ℕ) → axis < 8 → get_or result axis false ≡ axis_used (take count list) axis }
{
    let mut marks = [false; 8];
    let mut i: u8 = 0;
    while i < 8 {
        let used = axis_used(list, count, i);
        marks[i as usize] = used;
        i += 1;
    }
    marks
}

// What nothing alters afterwards. A list above 16 is refused, and its count is not kept.
pub fn fixed_of(config: Config, listed: Listed, boot_id: u64) -> Fixed
    ensures { Fixes config listed boot_id result }
{
    let records = listed.records;
    let count = if listed.count < 17 { listed.count } else { 16 };
    let used = mark_resources(records, count);
    Fixed {
        config: config,
        boot_id: boot_id,
        count: count,
        used: used,
    }
}

// The state by the first flags.
fn first_state(flags: u32, config: Config) -> RuntimeState
    ensures { result ≡ cond (meets_estop flags config) Estopped SafeIdle }
{
    if flags & config.estop_mask != 0 {
        return RuntimeState::Estopped;
    }
    RuntimeState::SafeIdle
}

// No lease, no order, no receipt.
pub fn numbers_of(config: Config, time: u64, flags: u32) -> Numbers
    ensures { result ≡ numbers_at config time flags }
{
    let state = first_state(flags, config);
    Numbers {
        next_receipt: 1,
        next_lease: 1,
        epoch: 1,
        state_at: time,
        last_tick: time,
        flags: flags,
        estop_seen: 0,
        invalid_count: 0,
        mode: Mode { state: state },
        held: 0,
        soonest: 0xffff_ffff_ffff_ffff,
    }
}

// the startup fallbacks --------------------------------------------------------------------------------------------------

// A start that ends.
fn ended(stage: Stage, good: bool, answer: Answer) -> Trial
    ensures { result ≡ ended_by stage good answer }
{
    let starting = Starting {
        stage: stage,
        good: good,
    };
    Trial {
        starting: starting,
        waiting: Waiting::NOTHING,
        axis: 0,
        answer: answer,
    }
}

// The axis that is tried next, or 8: past the last the start is over, and refused if one has failed.
pub fn tried(axis: u8, good: bool) -> Trial
    ensures { result ≡ trial_of axis good }
{
    if axis < 8 {
        let starting = Starting {
            stage: Stage::Trying,
            good: good,
        };
        let waiting = Waiting {
            awaited: Awaited::Fallback,
            after_record: AfterRecord::Fallback,
        };
        return Trial {
            starting: starting,
            waiting: waiting,
            axis: axis,
            answer: Answer::Item,
        };
    }
    if good {
        return ended(Stage::Started, true, Answer::Started);
    }
    ended(Stage::Gone, false, Answer::StartupFailed)
}

#[tactic(auto, unfolding(rules::specs::Admission::is_some))]
fn is_refusal(answer: Answer) -> bool
    ensures { result ≡ is_refusal answer }
{
    match answer {
        Answer::Returned => false,
        Answer::Unraised => false,
        Answer::Raised => false,
        Answer::Succeeded => false,
        Answer::Leased => false,
        Answer::Refused => false,
        Answer::Submitted => false,
        Answer::Item => false,
        Answer::ReplyAwaited => false,
        Answer::OtherAwaited => false,
        Answer::NoReplyAwaited => false,
        Answer::NoRuntime => false,
        Answer::Started => false,
        Answer::InvalidBootId => true,
        Answer::InvalidConfig => true,
        Answer::InvalidCapability => true,
        Answer::DuplicateCapability => true,
        Answer::StartupFailed => true,
    }
}

// What a start begins with, after its checks: nothing is called before every check has passed.
pub fn first_trial(checked: Answer, used: [bool; 8]) -> Trial
    ensures { result ≡ first_trial checked used }
{
    if is_refusal(checked) {
        return ended(Stage::Gone, false, checked);
    }
    tried(first_used(used, 0), true)
}

pub fn is_started(starting: Starting) -> bool
    ensures { result ≡ is_started starting.stage }
{
    let stage = starting.stage;
    match stage {
        Stage::Trying => false,
        Stage::Gone => false,
        Stage::Started => true,
    }
}

// who is heard -----------------------------------------------------------------------------------------------------------

// Whether a call may begin.
pub fn may_begin(starting: Starting, waiting: Waiting) -> bool
    ensures { result ≡ (is_started starting.stage && not (waits waiting.awaited)) }
{
    if is_started(starting) {
        !is_waiting(waiting)
    } else {
        false
    }
}

// What a call meets where it may not: a reply is awaited, or there is no runtime.
pub fn turned_away(starting: Starting) -> Answer
    ensures { result ≡ away_by starting.stage }
{
    let stage = starting.stage;
    match stage {
        Stage::Trying => Answer::ReplyAwaited,
        Stage::Gone => Answer::NoRuntime,
        Stage::Started => Answer::ReplyAwaited,
    }
}

// What a reply of another kind than a fallback's meets where there is no runtime.
pub fn unheard(starting: Starting) -> Answer
    ensures { result ≡ unheard_by starting.stage }
{
    let stage = starting.stage;
    match stage {
        Stage::Trying => Answer::OtherAwaited,
        Stage::Gone => Answer::NoReplyAwaited,
        Stage::Started => Answer::NoReplyAwaited,
    }
}

// No axis has failed so far, and this one has not.
pub fn still_good(good: bool, ok: bool) -> bool
    ensures { result ≡ (good && ok) }
{
    if good { ok } else { false }
}
