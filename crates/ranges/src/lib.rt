// Point 1 of a sound state: every number is in its range, and everything of workers P and up is free.
#![tactic(auto)]

ghost use Rattle.std.specs.Prelude.{◌≡◌};
ghost use Rattle.tables.specs.Machine.{eight, tables};
ghost use Rattle.states.specs.Sound.{point1, each_cell, each_entry, each_message};
ghost use Rattle.states.specs.Sound.{cell_in_range, entry_in_range, message_in_range};

use tables::{
    CEILING, CELL_ROW, CELLS, ENTRIES, ENTRY_ROW, Holding, Kind, Live, Message, State, WORKERS,
};

// A cell of worker w that holds k: it is free, or the worker is below P and the numbers in it are in range.
fn cell_in_range(s: &State, w: usize, k: Kind) -> bool
    ensures { result ≡ cell_in_range eight (tables s.now) w 0 k }
{
    match k {
        Kind::Free => true,
        Kind::Ref(c) => w < s.p as usize && c < CELLS,
        Kind::Ex {
            owner,
            entry,
            weight,
            ..
        } => w < s.p as usize && owner < s.p && entry < ENTRIES && weight <= CEILING,
        _ => w < s.p as usize,
    }
}

// The same of an entry that holds x.
fn entry_in_range(s: &State, w: usize, x: Holding) -> bool
    ensures { result ≡ entry_in_range eight (tables s.now) w 0 x }
{
    match x {
        None => true,
        Some(Live { cell, weight, .. }) => {
            w < s.p as usize && cell < CELLS && weight <= CEILING && 1 <= weight
        }
    }
}

// The numbers in a message are in range.
fn message_in_range(s: &State, m: Message) -> bool
    ensures { result ≡ message_in_range eight (tables s.now) m }
{
    match m {
        Message::Empty => true,
        Message::Reference {
            to,
            owner,
            entry,
            weight,
        } => to < s.p && owner < s.p && entry < ENTRIES && weight <= CEILING,
        Message::Release {
            owner,
            entry,
            weight,
        } => owner < s.p && entry < ENTRIES && weight <= CEILING,
        Message::Read {
            reader,
            cell,
            owner,
            entry,
        } => reader < s.p && cell < CELLS && owner < s.p && entry < ENTRIES,
        Message::Answer { reader, cell, .. } => reader < s.p && cell < CELLS,
        Message::Ask {
            asker,
            cell,
            owner,
            entry,
        } => asker < s.p && cell < CELLS && owner < s.p && entry < ENTRIES,
        Message::Supply {
            asker,
            cell,
            weight,
        } => asker < s.p && cell < CELLS && weight <= CEILING,
    }
}

fn cells_in_range(s: &State) -> bool
    ensures { result ≡ each_cell eight (tables s.now) (cell_in_range eight (tables s.now)) }
{
    s.cells
        .iter()
        .enumerate()
        .all(|(i, x)| cell_in_range(s, i / CELL_ROW, x.kind))
}

fn entries_in_range(s: &State) -> bool
    ensures { result ≡ each_entry eight (tables s.now) (entry_in_range eight (tables s.now)) }
{
    s.entries
        .iter()
        .enumerate()
        .all(|(i, x)| entry_in_range(s, i / ENTRY_ROW, x.holding))
}

fn messages_in_range(s: &State) -> bool
    ensures { result ≡ each_message eight (tables s.now) (message_in_range eight (tables s.now)) }
{
    s.slots.iter().all(|x| message_in_range(s, x.message))
}

#[tactic(auto, unfolding(states::specs::Sound::point1))]
pub fn point_1(s: &State) -> bool
    ensures { result ≡ point1 eight (tables s.now) }
{
    s.p <= WORKERS && cells_in_range(s) && entries_in_range(s) && messages_in_range(s)
}
