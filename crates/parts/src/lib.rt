// Tests of one part of the state, and what it names and weighs: what a cell, an entry or a slot holds.
#![tactic(auto)]

ghost use Rattle.std.specs.Prelude.{◌≡◌};
ghost use Rattle.tables.specs.Parts.{is_free, is_var, is_val, is_ex, is_reading, is_known, is_asking, ex_names, named_by, ex_weight, ref_names, end_from};
ghost use Rattle.tables.specs.Parts.{is_unused, is_live, is_tainted, entry_names, cell_of, entry_weight, is_empty, goes_to};

use tables::{EntryName, Holding, Kind, Message, Status};

// ---- cells

pub fn is_free(k: Kind) -> bool
    ensures { result ≡ is_free k }
{
    matches!(k, Kind::Free)
}

pub fn is_var(k: Kind) -> bool
    ensures { result ≡ is_var k }
{
    matches!(k, Kind::Var { .. })
}

pub fn is_val(k: Kind) -> bool
    ensures { result ≡ is_val k }
{
    matches!(k, Kind::Val { .. })
}

pub fn is_ex(k: Kind) -> bool
    ensures { result ≡ is_ex k }
{
    matches!(k, Kind::Ex { .. })
}

// An EX that is reading.
pub fn is_reading(k: Kind) -> bool
    ensures { result ≡ is_reading k }
{
    matches!(
        k,
        Kind::Ex {
            status: Status::Reading,
            ..
        }
    )
}

// An EX that is known.
pub fn is_known(k: Kind) -> bool
    ensures { result ≡ is_known k }
{
    matches!(
        k,
        Kind::Ex {
            status: Status::Known(_),
            ..
        }
    )
}

// An EX that is asking.
pub fn is_asking(k: Kind) -> bool
    ensures { result ≡ is_asking k }
{
    matches!(k, Kind::Ex { asking: true, .. })
}

// An EX that names the entry e of worker o: two numbers here and in other tests, as frames, messages and rules have them (`ex_names o e k`).
pub fn ex_names(o: u8, e: u8, k: Kind) -> bool
    ensures { result ≡ ex_names o e k }
{
    matches!(k, Kind::Ex { owner, entry, .. } if owner == o && entry == e)
}

// The entry that an EX names.
pub fn named_by(k: Kind) -> Option<EntryName>
    ensures { result ≡ named_by k }
{
    match k {
        Kind::Ex { owner, entry, .. } => Some(EntryName { owner, entry }),
        _ => None,
    }
}

// The weight of an EX, 0 for any other cell, as the rules have it (`ex_weight`).
pub fn ex_weight(k: Kind) -> u32
    ensures { result ≡ ex_weight k }
{
    match k {
        Kind::Ex { weight, .. } => weight,
        _ => 0,
    }
}

// A REF that names the cell c.
pub fn ref_names(c: u8, k: Kind) -> bool
    ensures { result ≡ ref_names c k }
{
    matches!(k, Kind::Ref(d) if d == c)
}

// The number of the end of the cell c, which holds k.
pub fn end_from(k: Kind, c: u8) -> u8
    ensures { result ≡ end_from k c }
{
    match k {
        Kind::Ref(d) => d,
        _ => c,
    }
}

// ---- entries

pub fn is_unused(x: Holding) -> bool
    ensures { result ≡ is_unused x }
{
    x.is_none()
}

pub fn is_live(x: Holding) -> bool
    ensures { result ≡ is_live x }
{
    x.is_some()
}

pub fn is_tainted(x: Holding) -> bool
    ensures { result ≡ is_tainted x }
{
    x.is_some_and(|live| live.tainted)
}

// A live entry that names the cell c.
pub fn entry_names(c: u8, x: Holding) -> bool
    ensures { result ≡ entry_names c x }
{
    x.is_some_and(|live| live.cell == c)
}

// The cell that an entry names, 0 where it is free, as the rules have it (`cell_of`).
pub fn cell_of(x: Holding) -> u8
    ensures { result ≡ cell_of x }
{
    x.map_or(0, |live| live.cell)
}

// The weight of an entry, 0 where it is free, as the rules have it (`entry_weight`).
pub fn entry_weight(x: Holding) -> u32
    ensures { result ≡ entry_weight x }
{
    x.map_or(0, |live| live.weight)
}

// ---- slots

pub fn is_empty(m: Message) -> bool
    ensures { result ≡ is_empty m }
{
    matches!(m, Message::Empty)
}

// A Reference going to worker w.
pub fn goes_to(w: u8, m: Message) -> bool
    ensures { result ≡ goes_to w m }
{
    matches!(m, Message::Reference { to, .. } if to == w)
}
