// Chains: the step along ends and references from each entry, as a table that is made once, and the walk by it.
#![tactic(auto)]

ghost use Rattle.std.specs.Prelude.{◌≡◌};
ghost use Rattle.numbers.specs.Below.{walk_meets};
ghost use Rattle.tables.specs.Machine.{Tables, eight, tables};
ghost use Rattle.tables.specs.Parts.{is_at};
ghost use Rattle.states.specs.Chains.{through};
ghost use Rattle.states.specs.Sound.{reached};
ghost use Rattle.chains.specs.Hops.{Followed, step_by};

use std::array;
use tables::{ALL_ENTRIES, ENTRIES, ENTRY_ROW, EntryName, Holding, Live, State, WORKERS};

// Where the step from each entry leads, entry e of worker w at w * ENTRY_ROW + e.
pub type Hops = [Option<EntryName>; ALL_ENTRIES];

// The step from an entry of worker w that holds x, to what the end of its cell names. A free entry leads nowhere.
#[tactic(auto, unfolding(tables::specs::Look::end, tables::specs::Look::end_kind))]
fn hop(s: &State, w: u8, x: Holding) -> Option<EntryName>
    ensures { result ≡ through eight (tables s.now) w x }
{
    match x {
        None => None,
        Some(Live { cell, .. }) => parts::named_by(lookups::see(&s.cells, w, cell).ending),
    }
}

// The steps from all entries.
pub fn hops_of(s: &State) -> Hops
    ensures { Followed eight (tables s.now) result 128 }
{
    array::from_fn(|i| hop(s, (i / ENTRY_ROW) as u8, s.entries[i].holding))
}

// Where one step leads from a place.
#[tactic(auto, unfolding(crate::specs::Hops::step_by))]
fn step(hops: &Hops, at: Option<EntryName>) -> Option<EntryName>
    ensures { result ≡ step_by eight hops.now at }
{
    let EntryName { owner, entry } = at?;
    if WORKERS <= owner || ENTRIES <= entry {
        return None;
    }
    hops[owner as usize * ENTRY_ROW + entry as usize]
}

// The entry `to` is at the place `from`, or reached from there. The walk ends after so many steps, and has no list to go over.
pub fn reached(hops: &Hops, from: Option<EntryName>, to: EntryName) -> bool
    ensures by_table { result ≡ walk_meets (is_at to.owner to.entry) (step_by eight hops.now) 128 from }
    ensures by_state { (t : Tables) → Followed eight t hops.now 128 → result ≡ reached eight t from to.owner to.entry }
{
    let mut at = from;
    for _ in 0..ALL_ENTRIES {
        if at == Some(to) {
            return true;
        }
        at = step(hops, at);
    }
    false
}
