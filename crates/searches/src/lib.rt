// What is sought and counted in the tables: the lowest cell, entry or slot of a kind, and how many there are. Each function is lent the one table
// that it walks over and says what it finds of any tables t that have this one; past the last worker all is free. Where none is found the number is the
// one past the last, and no Option: the rules have it so (`lowest_free_cell` in Look.antt) and put it into effects; seven of nine callers would turn it back.
#![tactic(auto)]

ghost use Rattle.std.specs.Prelude.{◌≡◌, ◌||◌};
ghost use Rattle.tables.specs.Machine.{Tables, eight};
ghost use Rattle.tables.specs.Parts.{is_reading, is_asking};
ghost use Rattle.tables.specs.Look.{entry_of, exported, referred};
ghost use Rattle.tables.specs.Look.{lowest_free_cell, lowest_free_entry, lowest_empty_slot, ex_naming, free_cells, booked, live_entries, room};

use tables::{CELLS, CellTable, ENTRIES, EntryTable, Kind, Room, SlotTable};

// ---- the lowest cell that is sought

// The lowest free cell of worker w, 32 where there is none.
pub fn lowest_free_cell(cells: &CellTable, w: u8) -> u8
    ensures { (t : Tables) → t.cells ≡ cells.now → result ≡ lowest_free_cell eight t w }
{
    rows::lowest(cells, w, |x| parts::is_free(x.kind))
}

// A REF of worker w names its cell c.
fn is_referred(cells: &CellTable, w: u8, c: u8) -> bool
    ensures { (t : Tables) → t.cells ≡ cells.now → result ≡ referred eight t w c }
{
    rows::lowest(cells, w, |x| parts::ref_names(c, x.kind)) < CELLS
}

// The EX of worker w that names the entry e of worker o, 32 where there is none.
pub fn ex_naming(cells: &CellTable, w: u8, o: u8, e: u8) -> u8
    ensures { (t : Tables) → t.cells ≡ cells.now → result ≡ ex_naming eight t w o e }
{
    rows::lowest(cells, w, |x| parts::ex_names(o, e, x.kind))
}

// ---- the lowest entry that is sought

// The lowest free entry of worker w, 16 where there is none.
pub fn lowest_free_entry(entries: &EntryTable, w: u8) -> u8
    ensures { (t : Tables) → t.entries ≡ entries.now → result ≡ lowest_free_entry eight t w }
{
    rows::lowest(entries, w, |x| parts::is_unused(x.holding))
}

// The live entry of worker w that names its cell c, 16 where there is none.
pub fn entry_of(entries: &EntryTable, w: u8, c: u8) -> u8
    ensures { (t : Tables) → t.entries ≡ entries.now → result ≡ entry_of eight t w c }
{
    rows::lowest(entries, w, |x| parts::entry_names(c, x.holding))
}

// A live entry of worker w names its cell c.
#[tactic(auto, unfolding(tables::specs::Look::exported))]
pub fn is_exported(entries: &EntryTable, w: u8, c: u8) -> bool
    ensures { (t : Tables) → t.entries ≡ entries.now → result ≡ exported eight t w c }
{
    entry_of(entries, w, c) < ENTRIES
}

// ---- busy, and an empty slot

// A live entry or a REF names the cell c of worker w, which holds k, or k is an EX that is reading or asking.
pub fn is_busy(cells: &CellTable, entries: &EntryTable, w: u8, c: u8, k: Kind) -> bool
    ensures { (t : Tables) → t.cells ≡ cells.now → t.entries ≡ entries.now → result ≡ (exported eight t w c || referred eight t w c || is_reading k || is_asking k) }
{
    is_exported(entries, w, c)
        || is_referred(cells, w, c)
        || parts::is_reading(k)
        || parts::is_asking(k)
}

// The lowest empty slot, 64 where there is none.
pub fn lowest_empty_slot(slots: &SlotTable) -> u8
    ensures { (t : Tables) → t.slots ≡ slots.now → result ≡ lowest_empty_slot eight t }
{
    rows::lowest(slots, 0, |x| parts::is_empty(x.message))
}

// ---- counts

// How many cells of worker w are free.
pub fn free_cells(cells: &CellTable, w: u8) -> u8
    ensures { (t : Tables) → t.cells ≡ cells.now → result ≡ free_cells eight t w }
{
    rows::count(cells, w, |x| parts::is_free(x.kind))
}

// How many Reference messages go to worker w. A loop and no chain: the wrong program `booked_for_another` speaks of the count so far.
#[tactic(auto, unfolding(tables::specs::Look::booked))]
pub fn booked(slots: &SlotTable, w: u8) -> u8
    ensures { (t : Tables) → t.slots ≡ slots.now → result ≡ booked t w }
{
    let mut n = 0;
    for x in slots {
        n += u8::from(parts::goes_to(w, x.message));
    }
    n
}

// How many entries are live.
#[tactic(auto, unfolding(tables::specs::Look::live_entries))]
pub fn live_entries(entries: &EntryTable) -> u8
    ensures { (t : Tables) → t.entries ≡ entries.now → result ≡ live_entries t }
{
    entries.iter().filter(|x| parts::is_live(x.holding)).count() as u8
}

// ---- what is looked at where a message is sent

// The room for a Reference to worker w.
pub fn room_at(cells: &CellTable, slots: &SlotTable, w: u8) -> Room
    ensures { (t : Tables) → t.cells ≡ cells.now → t.slots ≡ slots.now → result ≡ room eight t w }
{
    Room {
        free: free_cells(cells, w),
        booked: booked(slots, w),
        slot: lowest_empty_slot(slots),
    }
}
