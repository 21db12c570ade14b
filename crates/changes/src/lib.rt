// What each call but deliver does where it is not refused: its answer and what it changes, from what is looked up; and the state after any call.
#![tactic(auto)]

ghost use Rattle.std.specs.Prelude.{◌≤◌, min, ◌≡◌};
ghost use Rattle.tables.specs.declared.Kind.TheVariants.{Var};
ghost use Rattle.tables.specs.declared.Change.TheVariants.{Nothing, OfCell, OfCellAndSlot, OfEntryAndSlot};
ghost use Rattle.tables.specs.Machine.{Tables, eight, tables, state};
ghost use Rattle.tables.specs.declared.Message.TheVariants.{Empty, Reference};
ghost use Rattle.tables.specs.Parts.{on_ex, entry_weight};
ghost use Rattle.tables.specs.Look.{changed};
ghost use Rattle.rules.specs.Answers.{made, reply};
ghost use Rattle.rules.specs.Refusals.{entry_to_use, used};
ghost use Rattle.rules.specs.Calls.{all_free, valued, bound_to, gains, keeps, releases, costs, B};
ghost use Rattle.rules.specs.Calls.{by_location, by_reference, export_end, transferred, dropped, read_at, ask_at};
ghost use Rattle.changes.specs.BelowCeiling.{added};

use tables::{
    ALL_CELLS, ALL_ENTRIES, ALL_SLOTS, CEILING, Cell, Change, ENTRIES, Effect, Entry, EntryTable,
    FIRST_WEIGHT, Holding, Kind, LAST_CALLER, Live, Message, Outcome, Reply, Slot, SlotTable,
    State, Status, Used,
};

// P workers, everything free.
#[tactic(auto, unfolding(rules::specs::Calls::all_free))]
pub fn all_free(p: u8) -> State
    ensures { result ≡ state (all_free eight p) }
{
    State {
        p,
        cells: [Cell { kind: Kind::Free }; ALL_CELLS],
        entries: [Entry { holding: None }; ALL_ENTRIES],
        slots: [Slot {
            message: Message::Empty,
        }; ALL_SLOTS],
    }
}

// The sum of two weights. In a sound state no weight passes the ceiling; where one does, the answer is not used. Tables made by hand hold any
// number, so that the bound stands as a condition in the contracts below, and not in a type.
#[tactic(auto, unfolding(crate::specs::BelowCeiling::added))]
pub fn add_weights(a: u32, b: u32) -> u32
    ensures { result ≡ added a b }
{
    if CEILING < a || CEILING < b {
        return a;
    }
    a + b
}

// ---- what is done, and the state then. Each way to do it makes another variant of `Change`, so each is a function.

// This outcome, and nothing changed.
pub fn unchanged(outcome: Outcome) -> Effect
    ensures { result ≡ record { outcome = outcome; change = Nothing } }
{
    Effect {
        outcome,
        change: Change::Nothing,
    }
}

// This outcome, and k in the cell c of worker w.
pub fn with_cell(outcome: Outcome, w: u8, c: u8, k: Kind) -> Effect
    ensures { result ≡ record { outcome = outcome; change = OfCell w c k } }
{
    Effect {
        outcome,
        change: Change::OfCell { w, c, kind: k },
    }
}

// This outcome, k in the cell c of worker w, and the message m in the slot.
pub fn with_cell_and_message(
    outcome: Outcome,
    w: u8,
    c: u8,
    k: Kind,
    slot: u8,
    m: Message,
) -> Effect
    ensures { result ≡ record { outcome = outcome; change = OfCellAndSlot w c k slot m } }
{
    Effect {
        outcome,
        change: Change::OfCellAndSlot {
            w,
            c,
            kind: k,
            slot,
            message: m,
        },
    }
}

// This outcome, x in the entry e of worker w, and the message m in the slot.
pub fn with_entry_and_message(
    outcome: Outcome,
    w: u8,
    e: u8,
    x: Holding,
    slot: u8,
    m: Message,
) -> Effect
    ensures { result ≡ record { outcome = outcome; change = OfEntryAndSlot w e x slot m } }
{
    Effect {
        outcome,
        change: Change::OfEntryAndSlot {
            w,
            e,
            holding: x,
            slot,
            message: m,
        },
    }
}

// The state with d changed in it.
fn changed(s: State, d: Change) -> State
    ensures { result ≡ state (changed eight (tables s) d) }
{
    match d {
        Change::Nothing => s,
        Change::OfCell { w, c, kind } => lookups::put_cell(s, w, c, kind),
        Change::OfSlot { slot, message } => lookups::put_message(s, slot, message),
        Change::OfCellAndSlot {
            w,
            c,
            kind,
            slot,
            message,
        } => lookups::put_message(lookups::put_cell(s, w, c, kind), slot, message),
        Change::OfEntryAndSlot {
            w,
            e,
            holding,
            slot,
            message,
        } => lookups::put_message(lookups::put_entry(s, w, e, holding), slot, message),
    }
}

// The reply to a call on s that does d.
pub fn replied(s: State, d: Effect) -> Reply
    ensures { result ≡ reply (made eight (tables s) d) }
{
    Reply {
        outcome: d.outcome,
        state: changed(s, d.change),
    }
}

// ---- new, set and bind

// A variable of this caller; of the last one, where the caller is above it, which `new` refuses.
pub fn variable(caller: u32) -> Kind
    ensures { result ≡ Var (min caller 255) }
{
    Kind::Var {
        caller: caller.min(LAST_CALLER) as u8,
    }
}

// A VAR gets the value n and keeps its caller.
pub fn valued(n: u32, k: Kind) -> Kind
    ensures { result ≡ valued n k }
{
    match k {
        Kind::Var { caller } => Kind::Val { n, caller },
        _ => k,
    }
}

// What the VAR k becomes where it is bound to the end y, which holds ex: where ex is a known EX, a VAL that keeps its caller, and else a REF. An
// end that is no EX is refused, and the answer is not used.
pub fn bound_to(y: u8, k: Kind, ex: Kind) -> Kind
    ensures { result ≡ bound_to y k ex }
{
    match ex {
        Kind::Ex {
            status: Status::Known(v),
            ..
        } => valued(v, k),
        _ => Kind::Ref(y),
    }
}

// ---- export, indirect, transfer

// The number of the entry of the cell c, or of the lowest free one; past the last where there is none, which `used` and `no_entry` of the rules compare.
#[tactic(auto, unfolding(rules::specs::Refusals::entry_to_use, tables::specs::Look::exported))]
fn entry_to_use(entries: &EntryTable, w: u8, c: u8) -> u8
    ensures { (t : Tables) → t.entries ≡ entries.now → result ≡ entry_to_use eight t w c }
{
    let own = searches::entry_of(entries, w, c);
    if own < ENTRIES {
        return own;
    }
    searches::lowest_free_entry(entries, w)
}

// That entry.
pub fn use_entry(entries: &EntryTable, w: u8, c: u8) -> Used
    ensures { (t : Tables) → t.entries ≡ entries.now → result ≡ used eight t w c }
{
    let number = entry_to_use(entries, w, c);
    let holding = lookups::entry_at(entries, w, number);
    Used { number, holding }
}

// The entry that a cell c exported by location uses: made with this taint, or with 1,024 gained.
#[tactic(auto, using(crate::specs::BelowCeiling::added_is))]
fn gains(c: u8, taint: bool, x: Holding) -> Holding
    ensures { entry_weight x ≤ 1048576 → result ≡ gains 1024 c taint x }
{
    match x {
        None => Some(Live {
            cell: c,
            weight: FIRST_WEIGHT,
            tainted: taint,
        }),
        Some(live) => Some(Live {
            weight: add_weights(live.weight, FIRST_WEIGHT),
            ..live
        }),
    }
}

// By location, the cell x itself, with the entry u and the lowest empty slot.
pub fn by_location(w: u8, x: u8, to: u8, taint: bool, u: Used, slot: u8) -> Effect
    ensures { entry_weight u.holding ≤ 1048576 → result ≡ by_location eight w x to taint u slot }
{
    let e = u.number;
    let gained = gains(x, taint, u.holding);
    let m = Message::Reference {
        to,
        owner: w,
        entry: e,
        weight: FIRST_WEIGHT,
    };
    with_entry_and_message(Outcome::Done(slot as u32), w, e, gained, slot, m)
}

// What an EX keeps where half its weight, rounded down, is sent.
fn keeps(mut k: Kind) -> Kind
    ensures { result ≡ keeps eight k }
{
    if let Kind::Ex { weight, .. } = &mut k {
        *weight -= *weight / 2;
    }
    k
}

// A Reference of this weight to what the EX k names.
fn reference(to: u8, k: Kind, weight: u32) -> Message
    ensures { result ≡ on_ex Empty (λ o e n st a. Reference to o e weight) k }
{
    match k {
        Kind::Ex { owner, entry, .. } => Message::Reference {
            to,
            owner,
            entry,
            weight,
        },
        _ => Message::Empty,
    }
}

// By reference, the EX x, which holds ex.
fn by_reference(w: u8, x: u8, to: u8, ex: Kind, slot: u8) -> Effect
    ensures { result ≡ by_reference eight w x to ex slot }
{
    let done = Outcome::Done(slot as u32);
    let half = reference(to, ex, parts::ex_weight(ex) / 2);
    with_cell_and_message(done, w, x, keeps(ex), slot, half)
}

// The end x of an exported cell, which holds k: by reference where it is an EX, and else by location.
pub fn export_end(w: u8, x: u8, to: u8, k: Kind, u: Used, slot: u8) -> Effect
    ensures { entry_weight u.holding ≤ 1048576 → result ≡ export_end eight w x to k u slot }
{
    if parts::is_ex(k) {
        by_reference(w, x, to, k, slot)
    } else {
        by_location(w, x, to, false, u, slot)
    }
}

// The EX of the cell c, freed and sent.
pub fn transferred(w: u8, c: u8, to: u8, ex: Kind, slot: u8) -> Effect
    ensures { result ≡ transferred w c to ex slot }
{
    let done = Outcome::Done(slot as u32);
    let whole = reference(to, ex, parts::ex_weight(ex));
    with_cell_and_message(done, w, c, Kind::Free, slot, whole)
}

// ---- drop

// A dropped EX sends its whole weight as a Release.
fn releases(k: Kind) -> Message
    ensures { result ≡ releases k }
{
    match k {
        Kind::Ex {
            owner,
            entry,
            weight,
            ..
        } => Message::Release {
            owner,
            entry,
            weight,
        },
        _ => Message::Empty,
    }
}

// The cell c, which held k, is freed: an EX sends its weight, any other kind nothing, and is answered 64, as the rules have it (`dropped`).
pub fn dropped(w: u8, c: u8, k: Kind, slot: u8) -> Effect
    ensures { result ≡ dropped w c k slot }
{
    if parts::is_ex(k) {
        let done = Outcome::Done(slot as u32);
        with_cell_and_message(done, w, c, Kind::Free, slot, releases(k))
    } else {
        with_cell(Outcome::Done(64), w, c, Kind::Free)
    }
}

// ---- read and ask

// A read that comes to the end x, which holds k.
pub fn read_at(w: u8, x: u8, mut k: Kind, slot: u8) -> Effect
    ensures { result ≡ read_at w x k slot }
{
    match &mut k {
        Kind::Val { n, .. } => unchanged(Outcome::Done(*n)),
        Kind::Ex {
            owner,
            entry,
            status,
            ..
        } => match *status {
            Status::Idle => {
                let m = Message::Read {
                    reader: w,
                    cell: x,
                    owner: *owner,
                    entry: *entry,
                };
                *status = Status::Reading;
                with_cell_and_message(Outcome::Sent(slot), w, x, k, slot, m)
            }
            Status::Reading => unchanged(Outcome::Waiting),
            Status::Known(v) => unchanged(Outcome::Done(v)),
        },
        _ => unchanged(Outcome::Unbound),
    }
}

// An ask that comes to the end x, which holds k: asking already, or not.
pub fn ask_at(w: u8, x: u8, mut k: Kind, slot: u8) -> Effect
    ensures { result ≡ ask_at w x k slot }
{
    match &mut k {
        Kind::Ex {
            owner,
            entry,
            asking,
            ..
        } if !*asking => {
            let m = Message::Ask {
                asker: w,
                cell: x,
                owner: *owner,
                entry: *entry,
            };
            *asking = true;
            with_cell_and_message(Outcome::Sent(slot), w, x, k, slot, m)
        }
        _ => unchanged(Outcome::Waiting),
    }
}

// ---- bound

// What a message counts, with this many live entries.
fn costs(live: u8, m: Message) -> u32
    ensures { result ≡ costs live m }
{
    match m {
        Message::Empty => 0,
        Message::Read { .. } => live as u32 + 1,
        Message::Ask { .. } => 2,
        _ => 1,
    }
}

// B.
pub fn all_costs(entries: &EntryTable, slots: &SlotTable) -> u32
    ensures { (t : Tables) → t.entries ≡ entries.now → t.slots ≡ slots.now → result ≡ B eight t }
{
    let live = searches::live_entries(entries);
    slots.iter().map(|x| costs(live, x.message)).sum()
}
