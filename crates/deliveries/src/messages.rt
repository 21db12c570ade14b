// What a delivery does where it is not refused, message by message. That the state is sound stands as a condition where it is needed: a type that says
// it would hold the lent state, and every contract would still name it. An entry's owner and number come apart, as in messages and rules.
ghost use Rattle.std.specs.Prelude.{◌≤◌, ◌-◌, min, ◌≡◌, true};
ghost use Rattle.tables.specs.declared.Message.TheVariants.{Reference, Read};
ghost use Rattle.tables.specs.declared.Change.TheVariants.{OfSlot};
ghost use Rattle.tables.specs.Machine.{eight, tables};
ghost use Rattle.tables.specs.Parts.{ex_weight, entry_weight};
ghost use Rattle.rules.specs.Answers.{done};
ghost use Rattle.states.specs.Sound.{sound};
ghost use Rattle.states.specs.Chains.{entry_end};
ghost use Rattle.rules.specs.Deliver.{taken_off, joined, known, supplied, grown, read_on_ex, read_on, arrival_cell, deliver_message};
ghost use Rattle.rules.specs.Deliver.{deliver_home, deliver_away, deliver_release, deliver_answer, deliver_supply, deliver_ask};
ghost use Rattle.rules.specs.Refusals.{read_end};

use changes::{add_weights, with_cell_and_message, with_entry_and_message};
use tables::{
    CEILING, CELLS, Change, Effect, FIRST_WEIGHT, Holding, Kind, Message, Outcome, State, Status,
};

// ---- what becomes of an entry and of a cell

// The weight is taken off the entry, which is freed at 0.
fn taken_off(w: u32, x: Holding) -> Holding
    ensures { result ≡ taken_off w x }
{
    let mut live = x?;
    if live.weight <= w {
        return None;
    }
    live.weight -= w;
    Some(live)
}

// The weight joins the EX, or the cell becomes such an EX, idle.
#[tactic(auto, using(changes::specs::BelowCeiling::added_is))]
fn joined(o: u8, e: u8, w: u32, mut k: Kind) -> Kind
    ensures { w ≤ 1048576 → ex_weight k ≤ 1048576 → result ≡ joined o e w k }
{
    match &mut k {
        Kind::Ex { weight, .. } => {
            *weight = add_weights(*weight, w);
            k
        }
        _ => Kind::Ex {
            owner: o,
            entry: e,
            weight: w,
            status: Status::Idle,
            asking: false,
        },
    }
}

// The EX is known with v.
fn known(v: u32, mut k: Kind) -> Kind
    ensures { result ≡ known v k }
{
    if let Kind::Ex { status, .. } = &mut k {
        *status = Status::Known(v);
    }
    k
}

// Weight added, no longer asking.
#[tactic(auto, using(changes::specs::BelowCeiling::added_is))]
fn supplied(w: u32, mut k: Kind) -> Kind
    ensures { w ≤ 1048576 → ex_weight k ≤ 1048576 → result ≡ supplied w k }
{
    if let Kind::Ex { weight, asking, .. } = &mut k {
        *weight = add_weights(*weight, w);
        *asking = false;
    }
    k
}

// What an Ask is given by an entry of this weight: the smaller of 1,024 and what is left below the ceiling.
fn supply_from(weight: u32) -> u32
    ensures { result ≡ min 1024 (1048576 - weight) }
{
    FIRST_WEIGHT.min(CEILING.saturating_sub(weight))
}

// The entry that an Ask finds gains what it gives.
fn grown(x: Holding) -> Holding
    ensures { result ≡ grown (min 1024 (1048576 - entry_weight x)) x }
{
    let mut live = x?;
    live.weight += supply_from(live.weight);
    Some(live)
}

// The end of the cell that a live entry of worker o names.
fn entry_end(s: &State, o: u8, x: Holding) -> Kind
    ensures { result ≡ entry_end eight (tables s.now) o x }
{
    x.map_or(Kind::Free, |live| {
        lookups::see(&s.cells, o, live.cell).ending
    })
}

// The end that a Read comes to; nothing for any other message.
pub fn read_end(s: &State, m: Message) -> Kind
    ensures { result ≡ read_end eight (tables s.now) m }
{
    match m {
        Message::Read { owner, entry, .. } => {
            entry_end(s, owner, lookups::entry_at(&s.entries, owner, entry))
        }
        _ => Kind::Free,
    }
}

// What a Read for the cell c of worker r becomes at an EX, by its status.
fn read_on_ex(r: u8, c: u8, o: u8, e: u8, st: Status) -> Message
    ensures { result ≡ read_on_ex r c o e st }
{
    let on = Message::Read {
        reader: r,
        cell: c,
        owner: o,
        entry: e,
    };
    match st {
        Status::Known(v) => Message::Answer {
            reader: r,
            cell: c,
            n: v,
        },
        _ => on,
    }
}

// What a Read m for the cell c of worker r becomes at the end k.
fn read_on(r: u8, c: u8, m: Message, k: Kind) -> Message
    ensures { result ≡ read_on r c m k }
{
    match k {
        Kind::Val { n, .. } => Message::Answer {
            reader: r,
            cell: c,
            n,
        },
        Kind::Ex {
            owner,
            entry,
            status,
            ..
        } => read_on_ex(r, c, owner, entry, status),
        _ => m,
    }
}

// ---- each message, in the slot k

// The cell of worker w where a Reference to the entry e of worker o arrives; past the last where there is none, as the rules' `arrival_cell`.
#[tactic(auto, unfolding(rules::specs::Deliver::arrival_cell))]
fn arrival_cell(s: &State, w: u8, o: u8, e: u8) -> u8
    ensures { result ≡ arrival_cell eight (tables s.now) w o e }
{
    let x = searches::ex_naming(&s.cells, w, o, e);
    if x < CELLS {
        return x;
    }
    searches::lowest_free_cell(&s.cells, w)
}

// A Reference at the owner.
#[tactic(auto, unfolding(rules::specs::Deliver::deliver_home))]
fn deliver_home(s: &State, k: u8, o: u8, e: u8, w: u32) -> Effect
    ensures { result ≡ deliver_home eight (tables s.now) k o e w }
{
    let x = lookups::entry_at(&s.entries, o, e);
    let value = Outcome::Done(parts::cell_of(x) as u32);
    let left = taken_off(w, x);
    with_entry_and_message(value, o, e, left, k, Message::Empty)
}

// A Reference elsewhere.
#[tactic(auto, using(changes::specs::BelowCeiling::cell_weight), unfolding(rules::specs::Deliver::deliver_away))]
fn deliver_away(s: &State, k: u8, to: u8, o: u8, e: u8, w: u32) -> Effect
    ensures { sound eight (tables s.now) ≡ true → w ≤ 1048576 → result ≡ deliver_away eight (tables s.now) k to o e w }
{
    let c = arrival_cell(s, to, o, e);
    let ex = joined(o, e, w, lookups::cell_at(&s.cells, to, c));
    with_cell_and_message(Outcome::Done(c as u32), to, c, ex, k, Message::Empty)
}

#[tactic(auto, unfolding(rules::specs::Deliver::deliver_message))]
pub fn deliver_reference(s: &State, k: u8, to: u8, o: u8, e: u8, w: u32) -> Effect
    ensures { sound eight (tables s.now) ≡ true → w ≤ 1048576 → result ≡ deliver_message eight (tables s.now) k (Reference to o e w) }
{
    if to == o {
        return deliver_home(s, k, o, e, w);
    }
    deliver_away(s, k, to, o, e, w)
}

#[tactic(auto, unfolding(rules::specs::Deliver::deliver_release))]
pub fn deliver_release(s: &State, k: u8, o: u8, e: u8, w: u32) -> Effect
    ensures { result ≡ deliver_release eight (tables s.now) k o e w }
{
    let left = taken_off(w, lookups::entry_at(&s.entries, o, e));
    with_entry_and_message(Outcome::Done(0), o, e, left, k, Message::Empty)
}

// A Read that comes to this end.
pub fn deliver_read(k: u8, r: u8, c: u8, o: u8, e: u8, end: Kind) -> Effect
    ensures { result ≡ done 0 (OfSlot k (read_on r c (Read r c o e) end)) }
{
    let m = Message::Read {
        reader: r,
        cell: c,
        owner: o,
        entry: e,
    };
    Effect {
        outcome: Outcome::Done(0),
        change: Change::OfSlot {
            slot: k,
            message: read_on(r, c, m, end),
        },
    }
}

#[tactic(auto, unfolding(rules::specs::Deliver::deliver_answer))]
pub fn deliver_answer(s: &State, k: u8, r: u8, c: u8, v: u32) -> Effect
    ensures { result ≡ deliver_answer eight (tables s.now) k r c v }
{
    let ex = known(v, lookups::cell_at(&s.cells, r, c));
    with_cell_and_message(Outcome::Done(c as u32), r, c, ex, k, Message::Empty)
}

#[tactic(auto, using(changes::specs::BelowCeiling::cell_weight), unfolding(rules::specs::Deliver::deliver_supply))]
pub fn deliver_supply(s: &State, k: u8, a: u8, c: u8, w: u32) -> Effect
    ensures { sound eight (tables s.now) ≡ true → w ≤ 1048576 → result ≡ deliver_supply eight (tables s.now) k a c w }
{
    let ex = supplied(w, lookups::cell_at(&s.cells, a, c));
    with_cell_and_message(Outcome::Done(c as u32), a, c, ex, k, Message::Empty)
}

#[tactic(auto, unfolding(rules::specs::Deliver::deliver_ask))]
pub fn deliver_ask(s: &State, k: u8, a: u8, c: u8, o: u8, e: u8) -> Effect
    ensures { result ≡ deliver_ask eight (tables s.now) k a c o e }
{
    let x = lookups::entry_at(&s.entries, o, e);
    let m = Message::Supply {
        asker: a,
        cell: c,
        weight: supply_from(parts::entry_weight(x)),
    };
    with_entry_and_message(Outcome::Done(0), o, e, grown(x), k, m)
}
