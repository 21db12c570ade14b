// What stands in the tables at a number, and the state with one part changed. Each function is total: out of range reads free, and a store
// there changes nothing. A look-up is lent the one table that it reads, and says what it finds of any tables t that have this one:
// to be lent a whole state would ask more.
#![tactic(auto)]

ghost use Rattle.std.specs.Prelude.{◌≡◌};
ghost use Rattle.tables.specs.Machine.{Tables, eight, tables, state};
ghost use Rattle.tables.specs.Look.{cell, entry, message, put_cell, put_entry, put_message, safe};
ghost use Rattle.lookups.specs.Seen.{seen};

use tables::{Cell, CellTable, Entry, EntryTable, Holding, Kind, Message, Slot, SlotTable, State};

// ---- what stands in the tables

// What the cell c of worker w holds.
pub fn cell_at(cells: &CellTable, w: u8, c: u8) -> Kind
    ensures { (t : Tables) → t.cells ≡ cells.now → result ≡ cell eight t w c }
{
    rows::at(cells, w, c).kind
}

// What the entry e of worker w holds.
pub fn entry_at(entries: &EntryTable, w: u8, e: u8) -> Holding
    ensures { (t : Tables) → t.entries ≡ entries.now → result ≡ entry eight t w e }
{
    rows::at(entries, w, e).holding
}

// What the slot k holds.
pub fn message_at(slots: &SlotTable, k: u8) -> Message
    ensures { (t : Tables) → t.slots ≡ slots.now → result ≡ message t k }
{
    rows::at(slots, 0, k).message
}

// ---- the state with one part changed

// The state with k in the cell c of worker w.
#[tactic(auto, using(rows::specs::Laws::cell_stored))]
pub fn put_cell(mut s: State, w: u8, c: u8, k: Kind) -> State
    ensures { result ≡ state (put_cell eight (tables s) w c k) }
{
    rows::put(&mut s.cells, w, c, Cell { kind: k });
    s
}

// The state with x in the entry e of worker w.
#[tactic(auto, using(rows::specs::Laws::entry_stored))]
pub fn put_entry(mut s: State, w: u8, e: u8, x: Holding) -> State
    ensures { result ≡ state (put_entry eight (tables s) w e x) }
{
    rows::put(&mut s.entries, w, e, Entry { holding: x });
    s
}

// The state with m in the slot k.
pub fn put_message(mut s: State, k: u8, m: Message) -> State
    ensures { result ≡ state (put_message (tables s) k m) }
{
    rows::put(&mut s.slots, 0, k, Slot { message: m });
    s
}

// ---- a cell's end, and a safe EX

// What a call looks at in a cell: what it holds, the number of its end, and what the end holds.
#[derive(Clone, Copy)]
pub struct Seen {
    pub kind: Kind,
    pub end: u8,
    pub ending: Kind,
}

// The cell c of worker w, and its end.
#[tactic(auto, unfolding(tables::specs::Look::end, tables::specs::Look::end_kind))]
pub fn see(cells: &CellTable, w: u8, c: u8) -> Seen
    ensures { (t : Tables) → t.cells ≡ cells.now → result ≡ seen eight t w c }
{
    let kind = cell_at(cells, w, c);
    let end = parts::end_from(kind, c);
    let ending = cell_at(cells, w, end);
    Seen { kind, end, ending }
}

// k is an EX that is safe at worker w.
#[tactic(auto, unfolding(tables::specs::Look::safe))]
pub fn is_safe(entries: &EntryTable, w: u8, k: Kind) -> bool
    ensures { (t : Tables) → t.entries ≡ entries.now → result ≡ safe eight t w k }
{
    match k {
        Kind::Ex { owner, entry, .. } => {
            owner < w && !parts::is_tainted(entry_at(entries, owner, entry))
        }
        _ => false,
    }
}
