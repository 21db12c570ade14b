// Who pays for each cell's time (W-202): the way on from each cell, along its end and its reference, as a table that is made once, and the walk by
// it.
#![tactic(auto)]

ghost use Rattle.std.specs.Prelude.{◌≡◌, ◌<◌, get_or};
ghost use Rattle.tables.specs.Machine.{eight, tables};
ghost use Rattle.payers.specs.declared.Way.TheVariants.{Neither};
ghost use Rattle.payers.specs.Ways.{payer_of, led_to, way_on, end_at, ways_of, pays_by, payers_of};

use std::array;
use tables::{ALL_CELLS, CELL_ROW, CELLS, Holding, Kind, Live, State, WORKERS};

// Nobody in the rules: the number past the last caller. In the code it is None.
pub const NOBODY: u16 = 256;

// The way on from a cell's end: a VAR or a VAL is paid for by its caller, an EX leads to another cell, whose place in the table this is, in two bytes:
// other sizes than today's have more than 256 cells.
#[derive(Clone, Copy)]
enum Way {
    Neither,
    PaidBy(u8),
    LeadsTo(u16),
}

// The ways on from all cells, cell c of worker w at w * CELL_ROW + c.
type Ways = [Way; ALL_CELLS];

// Who pays at the end of a walk.
fn payer_of(way: Way) -> Option<u8>
    ensures { result ≡ payer_of way }
{
    match way {
        Way::PaidBy(caller) => Some(caller),
        _ => None,
    }
}

// The way on by an entry of worker w that holds x, to the cell that it names.
fn led_to(w: u8, x: Holding) -> Way
    ensures { result ≡ led_to eight w x }
{
    match x {
        Some(Live { cell, .. }) if w < WORKERS && cell < CELLS => {
            Way::LeadsTo(u16::from(w) * u16::from(CELLS) + u16::from(cell))
        }
        _ => Way::Neither,
    }
}

// The way on from an end that holds k.
fn way_on(s: &State, k: Kind) -> Way
    ensures { result ≡ way_on eight (tables s.now) k }
{
    match k {
        Kind::Var { caller } | Kind::Val { caller, .. } => Way::PaidBy(caller),
        Kind::Ex { owner, entry, .. } => led_to(owner, lookups::entry_at(&s.entries, owner, entry)),
        _ => Way::Neither,
    }
}

// The way on from the cell at the place i of the table.
fn way_from(s: &State, i: usize) -> Way
    requires { i < 256 }
    ensures { result ≡ way_on eight (tables s.now) (end_at eight (tables s.now) i) }
{
    let seen = lookups::see(&s.cells, (i / CELL_ROW) as u8, (i % CELL_ROW) as u8);
    way_on(s, seen.ending)
}

// The ways on from all cells.
fn ways_of(s: &State) -> Ways
    ensures { result ≡ ways_of eight (tables s.now) }
{
    array::from_fn(|i| way_from(s, i))
}

// The way on from the cell at the place `at`; past the table it leads nowhere.
fn way_at(ways: &Ways, at: u16) -> Way
    ensures { result ≡ get_or ways.now at Neither }
{
    ways.get(at as usize).copied().unwrap_or(Way::Neither)
}

// Who pays from the cell at `from` on, where at most n references are followed. The walk has no list to go over.
fn pays(ways: &Ways, from: u16, n: u8) -> Option<u8>
    ensures { result ≡ pays_by ways.now n from }
{
    let mut at = from;
    for _ in 0..n {
        let Way::LeadsTo(next) = way_at(ways, at) else {
            break;
        };
        at = next;
    }
    payer_of(way_at(ways, at))
}

// Who pays for each cell, none where nobody does.
pub fn payers_of(s: &State) -> [Option<u8>; ALL_CELLS]
    ensures { result ≡ payers_of eight (tables s.now) }
{
    let ways = ways_of(s);
    let n = searches::live_entries(&s.entries);
    array::from_fn(|i| pays(&ways, i as u16, n))
}
