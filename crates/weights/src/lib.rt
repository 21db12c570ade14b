// Points 5 and 6 of a sound state: weights are what is held, and there is room for what is booked.
#![tactic(auto)]

ghost use Rattle.std.specs.Prelude.{◌≡◌, ◌≤◌, ◌*◌, ℕ, length, sum_by, ◌&&◌, cond, eqb};
ghost use Rattle.std.specs.Fn.{FnReturnsAt};
ghost use Rattle.tables.specs.Machine.{eight, tables};
ghost use Rattle.tables.specs.Parts.{on_ex};
ghost use Rattle.states.specs.Sound.{message_holds, entry_weighs, point5, point6};

use tables::{ENTRY_ROW, Holding, Kind, Live, Message, State};

// ---- point 5

// What a cell that holds k holds on the entry e of worker o.
fn cell_holds(o: u8, e: u8, k: Kind) -> u32
    ensures { result ≡ on_ex 0 (λ owner entry n st a. cond (eqb owner o && eqb entry e) n 0) k }
{
    match k {
        Kind::Ex {
            owner,
            entry,
            weight,
            ..
        } if owner == o && entry == e => weight,
        _ => 0,
    }
}

// What the message m holds on the entry e of worker o.
fn message_holds(s: &State, o: u8, e: u8, m: Message) -> u32
    ensures { result ≡ message_holds eight (tables s.now) o e m }
{
    match m {
        Message::Reference {
            owner,
            entry,
            weight,
            ..
        } if owner == o && entry == e => weight,
        Message::Release {
            owner,
            entry,
            weight,
        } if owner == o && entry == e => weight,
        Message::Supply {
            asker,
            cell,
            weight,
        } if parts::ex_names(o, e, lookups::cell_at(&s.cells, asker, cell)) => weight,
        _ => 0,
    }
}

// What the parts of a table weigh together. A loop and no chain: that `map` and `sum` come to the sum, for any closure, did not prove.
fn total<T, F: Fn(&T) -> u32>(table: &[T], weight: F) -> u64
    requires callable { F.IsAlwaysCallable weight }
    requires short { length table.now ≤ 256 }
    ensures value { (g : T → ℕ) → ((x : T) (n : ℕ) → FnReturnsAt F.Fn weight x n → n ≡ g x) → result ≡ sum_by g table.now }
    ensures small { result ≤ 256 * 4294967295 }
{
    let mut sum = 0u64;
    for x in table {
        sum += u64::from(weight(x));
    }
    sum
}

// An entry that holds x weighs what is held on it, where it is live.
fn entry_weighs(s: &State, o: u8, e: u8, x: Holding) -> bool
    ensures { result ≡ entry_weighs eight (tables s.now) o e x }
{
    match x {
        None => true,
        Some(Live { weight, .. }) => {
            let in_cells = total(&s.cells, |x| cell_holds(o, e, x.kind));
            let in_slots = total(&s.slots, |x| message_holds(s, o, e, x.message));
            u64::from(weight) == in_cells + in_slots
        }
    }
}

pub fn point_5(s: &State) -> bool
    ensures { result ≡ point5 eight (tables s.now) }
{
    s.entries.iter().enumerate().all(|(i, x)| {
        entry_weighs(s, (i / ENTRY_ROW) as u8, (i % ENTRY_ROW) as u8, x.holding)
    })
}

// ---- point 6

pub fn point_6(s: &State) -> bool
    ensures { result ≡ point6 eight (tables s.now) }
{
    (0..s.p).all(|w| searches::booked(&s.slots, w) <= searches::free_cells(&s.cells, w))
}
