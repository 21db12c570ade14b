// Points 2 and 3 of a sound state: what REF, EX and live entries name.
#![tactic(auto)]

ghost use Rattle.std.specs.Prelude.{◌≡◌};
ghost use Rattle.tables.specs.Machine.{eight, tables};
ghost use Rattle.states.specs.Sound.{cell_names, exes_naming, point2, entry_names_cell, entries_naming, var_val_or_safe, point3};

use tables::{CELL_ROW, ENTRY_ROW, Holding, Kind, Live, State};

// ---- point 2

// How many EX of worker w name the entry e of worker o.
fn exes_naming(s: &State, w: u8, o: u8, e: u8) -> u8
    ensures { result ≡ exes_naming eight (tables s.now) w o e }
{
    rows::count(&s.cells, w, |x| parts::ex_names(o, e, x.kind))
}

// A cell of worker w that holds k names what it may.
fn cell_names(s: &State, w: u8, k: Kind) -> bool
    ensures { result ≡ cell_names eight (tables s.now) w 0 k }
{
    match k {
        Kind::Ref(c) => parts::is_ex(lookups::cell_at(&s.cells, w, c)),
        Kind::Ex {
            owner,
            entry,
            weight,
            ..
        } => {
            owner != w
                && parts::is_live(lookups::entry_at(&s.entries, owner, entry))
                && 1 <= weight
                && exes_naming(s, w, owner, entry) <= 1
        }
        _ => true,
    }
}

pub fn point_2(s: &State) -> bool
    ensures { result ≡ point2 eight (tables s.now) }
{
    s.cells
        .iter()
        .enumerate()
        .all(|(i, x)| cell_names(s, (i / CELL_ROW) as u8, x.kind))
}

// ---- point 3

// How many live entries of worker w name its cell c.
fn entries_naming(s: &State, w: u8, c: u8) -> u8
    ensures { result ≡ entries_naming eight (tables s.now) w c }
{
    rows::count(&s.entries, w, |x| parts::entry_names(c, x.holding))
}

// The end k of a cell of worker w is one that an untainted entry may have.
fn is_var_val_or_safe(s: &State, w: u8, k: Kind) -> bool
    ensures { result ≡ var_val_or_safe eight (tables s.now) w k }
{
    parts::is_var(k) || parts::is_val(k) || lookups::is_safe(&s.entries, w, k)
}

// An entry of worker w that holds x names a cell as it may.
#[tactic(auto, unfolding(tables::specs::Look::end, tables::specs::Look::end_kind))]
fn entry_names(s: &State, w: u8, x: Holding) -> bool
    ensures { result ≡ entry_names_cell eight (tables s.now) w 0 x }
{
    match x {
        None => true,
        Some(Live { cell, tainted, .. }) => {
            let seen = lookups::see(&s.cells, w, cell);
            !parts::is_free(seen.kind)
                && entries_naming(s, w, cell) <= 1
                && (tainted || is_var_val_or_safe(s, w, seen.ending))
        }
    }
}

pub fn point_3(s: &State) -> bool
    ensures { result ≡ point3 eight (tables s.now) }
{
    s.entries
        .iter()
        .enumerate()
        .all(|(i, x)| entry_names(s, (i / ENTRY_ROW) as u8, x.holding))
}
