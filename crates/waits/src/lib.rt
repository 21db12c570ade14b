// Point 4 of a sound state: reading and asking EX and their messages, and what messages name.
#![tactic(auto)]

ghost use Rattle.std.specs.Prelude.{◌≡◌};
ghost use Rattle.tables.specs.Machine.{eight, tables};
ghost use Rattle.states.specs.Sound.{reads_for, asks_for, reads_of, asks_of, each_cell, each_message, cell_awaited, message_has_its, point4};
ghost use Rattle.chains.specs.Hops.{Followed};

use chains::Hops;
use tables::{CELL_ROW, EntryName, Kind, Message, State, Status};

// ---- each reading EX has exactly one Read or Answer, each asking EX exactly one Ask or Supply

// A Read or an Answer for the cell c of worker w. It and the next, and their counts, are two rules (`reads_for`, `asks_for`) of other variants,
// which one function could only tell apart by a closure that lists them.
fn reads_for(w: u8, c: u8, m: Message) -> bool
    ensures { result ≡ reads_for w c m }
{
    match m {
        Message::Read { reader, cell, .. } | Message::Answer { reader, cell, .. } => {
            reader == w && cell == c
        }
        _ => false,
    }
}

// An Ask or a Supply for the cell c of worker w.
fn asks_for(w: u8, c: u8, m: Message) -> bool
    ensures { result ≡ asks_for w c m }
{
    match m {
        Message::Ask { asker, cell, .. } | Message::Supply { asker, cell, .. } => {
            asker == w && cell == c
        }
        _ => false,
    }
}

fn reads_of(s: &State, w: u8, c: u8) -> usize
    ensures { result ≡ reads_of eight (tables s.now) w c }
{
    s.slots
        .iter()
        .filter(|x| reads_for(w, c, x.message))
        .count()
}

fn asks_of(s: &State, w: u8, c: u8) -> usize
    ensures { result ≡ asks_of eight (tables s.now) w c }
{
    s.slots.iter().filter(|x| asks_for(w, c, x.message)).count()
}

// The cell c of worker w, which holds k, has the message that it waits for, and no second one.
fn cell_awaited(s: &State, w: u8, c: u8, k: Kind) -> bool
    ensures { result ≡ cell_awaited eight (tables s.now) w c k }
{
    match k {
        Kind::Ex { status, asking, .. } => {
            let reading = matches!(status, Status::Reading);
            (!reading || reads_of(s, w, c) == 1) && (!asking || asks_of(s, w, c) == 1)
        }
        _ => true,
    }
}

fn cells_awaited(s: &State) -> bool
    ensures { result ≡ each_cell eight (tables s.now) (cell_awaited eight (tables s.now)) }
{
    s.cells.iter().enumerate().all(|(i, x)| {
        cell_awaited(s, (i / CELL_ROW) as u8, (i % CELL_ROW) as u8, x.kind)
    })
}

// ---- what messages name

// The message m has its EX and names what it may.
fn message_has_its(s: &State, hops: &Hops, m: Message) -> bool
    ensures { Followed eight (tables s.now) hops.now 128 → result ≡ message_has_its eight (tables s.now) m }
{
    let is_live = |o, e| parts::is_live(lookups::entry_at(&s.entries, o, e));
    match m {
        Message::Empty => true,
        Message::Reference {
            owner,
            entry,
            weight,
            ..
        }
        | Message::Release {
            owner,
            entry,
            weight,
        } => is_live(owner, entry) && 1 <= weight,
        Message::Read {
            reader,
            cell,
            owner,
            entry,
        } => {
            let k = lookups::cell_at(&s.cells, reader, cell);
            parts::is_reading(k)
                && is_live(owner, entry)
                && chains::reached(hops, parts::named_by(k), EntryName { owner, entry })
        }
        Message::Answer { reader, cell, .. } => {
            parts::is_reading(lookups::cell_at(&s.cells, reader, cell))
        }
        Message::Ask {
            asker,
            cell,
            owner,
            entry,
        } => {
            let k = lookups::cell_at(&s.cells, asker, cell);
            parts::is_asking(k) && is_live(owner, entry) && parts::ex_names(owner, entry, k)
        }
        Message::Supply { asker, cell, .. } => {
            parts::is_asking(lookups::cell_at(&s.cells, asker, cell))
        }
    }
}

fn messages_have_theirs(s: &State) -> bool
    ensures { result ≡ each_message eight (tables s.now) (message_has_its eight (tables s.now)) }
{
    let hops = chains::hops_of(s);
    s.slots.iter().all(|x| message_has_its(s, &hops, x.message))
}

#[tactic(auto, unfolding(states::specs::Sound::point4))]
pub fn point_4(s: &State) -> bool
    ensures { result ≡ point4 eight (tables s.now) }
{
    cells_awaited(s) && messages_have_theirs(s)
}
