// What becomes of callers (W-201), and of a variable that is bound to a known EX (W-203): calls on states that are reached, from a start, and on states
// made by hand, by their names. A call is written as its frame with its answer, and after it, and after a name, every cell that is not free: its worker
// and number, what it is, a VAL's value, and last the caller of a VAR or a VAL.
#![tactic(auto)]

use cases_parts::{ex, idle, live, reference};
use changes::all_free;
use lookups::{put_cell, put_entry, put_message};
use std::io;
use tables::{CELL_ROW, Kind, State, Status};

// ---- lines

fn show_cell(rt: &impl Print, w: usize, c: usize, k: Kind) -> io::Result<()> {
    match k {
        Kind::Free => Ok(()),
        Kind::Var { caller } => println!(rt; "{w:02x}{c:02x} VAR {caller:02x}"),
        Kind::Val { n, caller } => println!(rt; "{w:02x}{c:02x} VAL {n:08x} {caller:02x}"),
        Kind::Ref(d) => println!(rt; "{w:02x}{c:02x} REF {d:02x}"),
        Kind::Ex { owner, entry, .. } => println!(rt; "{w:02x}{c:02x} EX {owner:02x} {entry:02x}"),
    }
}

// Every cell that is not free.
fn show(rt: &impl Print, s: State) -> io::Result<State> {
    for (i, cell) in s.cells.iter().enumerate() {
        show_cell(rt, i / CELL_ROW, i % CELL_ROW, cell.kind)?;
    }
    Ok(s)
}

// A call by its frame, its answer, and the state after it.
fn call(rt: &impl Print, s: State, frame: &str) -> io::Result<State> {
    let Some(q) = frames::decode(frame.as_bytes()) else {
        println!(rt; "{frame} is no frame")?;
        return Ok(s);
    };
    let reply = calls::step(s, q);
    let code = frames::code_of(reply.outcome);
    let value = frames::value_of(reply.outcome);
    println!(rt; "{frame} {code:02x}{value:08x}")?;
    show(rt, reply.state)
}

// ---- states made by hand

// Two workers. Worker 0: a VAR of caller 255 and a VAL of caller 17, both exported, a VAR of caller 1; worker 1: a reading EX of the VAR, an EX
// of the VAL, a VAR of caller 2.
fn waiting(rt: &impl Print) -> io::Result<State> {
    println!(rt; "waiting")?;
    let mut s = put_cell(all_free(2), 0, 0, Kind::Var { caller: 255 });
    s = put_cell(s, 0, 1, Kind::Val { n: 7, caller: 17 });
    s = put_cell(s, 0, 2, Kind::Var { caller: 1 });
    s = put_cell(s, 1, 0, ex(0, 0, 1024, Status::Reading, false));
    s = put_cell(s, 1, 1, idle(0, 1, 5));
    s = put_cell(s, 1, 2, Kind::Var { caller: 2 });
    s = put_entry(s, 0, 0, live(0, 1024));
    s = put_entry(s, 0, 1, live(1, 5));
    show(rt, put_message(s, 0, cases_parts::read(1, 0, 0, 0)))
}

// Two workers. Worker 1 has one free cell, the last, and a Reference comes to it; each of its other cells is a VAR, its caller its number.
fn crowded(rt: &impl Print) -> io::Result<State> {
    println!(rt; "crowded")?;
    let mut s = put_cell(all_free(2), 0, 0, Kind::Var { caller: 255 });
    s = put_entry(s, 0, 0, live(0, 1024));
    s = put_message(s, 0, reference(1, 0, 0, 1024));
    for c in 0..31u8 {
        s = put_cell(s, 1, c, Kind::Var { caller: c });
    }
    show(rt, s)
}

// Two workers. Worker 0: a VAL of 6 of caller 3, exported, an EX of worker 1's VAR; worker 1: a safe EX of the VAL, known with 0, as no reached state has
// it, a VAR of caller 255, exported, a REF to the EX.
fn knowing(rt: &impl Print) -> io::Result<State> {
    println!(rt; "knowing")?;
    let mut s = put_cell(all_free(2), 0, 0, Kind::Val { n: 6, caller: 3 });
    s = put_cell(s, 0, 1, idle(1, 0, 7));
    s = put_cell(s, 1, 0, ex(0, 0, 5, Status::Known(0), false));
    s = put_cell(s, 1, 1, Kind::Var { caller: 255 });
    s = put_cell(s, 1, 2, Kind::Ref(0));
    s = put_entry(s, 0, 0, live(0, 5));
    show(rt, put_entry(s, 1, 0, live(1, 7)))
}

// Two workers; an entry on which nothing is held.
fn unsound(rt: &impl Print) -> io::Result<State> {
    println!(rt; "unsound")?;
    let s = put_cell(all_free(2), 0, 0, Kind::Var { caller: 4 });
    show(rt, put_entry(s, 0, 0, live(0, 1)))
}

// ---- the cases

// "`new` takes a caller number, 0 to 255", "VAR and VAL cells carry it, `set` keeps it".
fn carried_and_kept(rt: &impl Print) -> io::Result<()> {
    let mut s = call(rt, all_free(0), "0101000000000000")?;
    s = call(rt, s, "0200000000000000")?;
    s = call(rt, s, "02000000000000ff")?;
    s = call(rt, s, "0200000000000100")?;
    s = call(rt, s, "02000000ffffffff")?;
    s = call(rt, s, "0300010000000007")?;
    s = call(rt, s, "03000000ffffffff")?;
    call(rt, s, "0300010000000008")?; // a VAL
    Ok(())
}

// An exported VAR of caller 9 and one of caller 10 that is not exported, beside an EX of a VAR of caller 5.
fn two_variables(rt: &impl Print) -> io::Result<State> {
    let mut s = call(rt, all_free(0), "0102000000000000")?;
    s = call(rt, s, "0200000000000005")?;
    s = call(rt, s, "0500000100000000")?; // export
    s = call(rt, s, "0b00000000000000")?;
    s = call(rt, s, "0201000000000009")?;
    s = call(rt, s, "020100000000000a")?;
    s = call(rt, s, "0501010000000000")?; // export
    call(rt, s, "0b00000000000000")
}

// "A bind loses the variable's own caller": each becomes a REF to the EX; a cell that is dropped and given out again has its new caller.
fn lost(rt: &impl Print) -> io::Result<State> {
    let mut s = call(rt, two_variables(rt)?, "0401010000000000")?; // bind
    s = call(rt, s, "0401020100000000")?; // bind to the other REF's end
    s = call(rt, s, "0801020000000000")?; // drop
    call(rt, s, "0201000000000003")
}

// A read sent, answered and brought, a second export, an ask and its supply leave it.
fn left_by_messages(rt: &impl Print) -> io::Result<State> {
    let mut s = call(rt, lost(rt)?, "0901000000000000")?; // read
    s = call(rt, s, "0300000000000007")?; // set
    s = call(rt, s, "0b00000000000000")?;
    s = call(rt, s, "0b00000000000000")?;
    s = call(rt, s, "0901000000000000")?; // known
    s = call(rt, s, "0500000100000000")?; // export
    s = call(rt, s, "0b00000000000000")?;
    s = call(rt, s, "0a01000000000000")?; // ask
    s = call(rt, s, "0b00000000000000")?;
    call(rt, s, "0b00000000000000")
}

// And an indirect export, a transfer home, drops and releases; freed and given out again the cell of caller 5 has its new caller.
fn left_until_freed(rt: &impl Print) -> io::Result<()> {
    let mut s = call(rt, left_by_messages(rt)?, "0601000000000000")?; // indirect
    s = call(rt, s, "0b00000000000000")?;
    s = call(rt, s, "0700020100000000")?; // transfer
    s = call(rt, s, "0b00000000000000")?;
    s = call(rt, s, "0800010000000000")?; // drop
    s = call(rt, s, "0b00000000000000")?;
    s = call(rt, s, "0801010000000000")?; // drop of the REF
    s = call(rt, s, "0801000000000000")?; // drop
    s = call(rt, s, "0b00000000000000")?;
    s = call(rt, s, "0800000000000000")?; // drop
    call(rt, s, "020000000000000b")?;
    Ok(())
}

// On cells made by hand: a Read that is not ready, set, the Read answered and brought, export, bind.
fn of_hand_made_cells(rt: &impl Print) -> io::Result<()> {
    let mut s = call(rt, waiting(rt)?, "0b00000000000000")?;
    s = call(rt, s, "0300000000000009")?; // set
    s = call(rt, s, "0b00000000000000")?;
    s = call(rt, s, "0b00000000000000")?;
    s = call(rt, s, "0500010100000000")?; // export
    call(rt, s, "0401020100000000")?; // bind
    Ok(())
}

// "16 for a caller above 255, after 3 and before 12", where the free cell is booked and where there is none; 2 before both.
fn refused_in_order(rt: &impl Print) -> io::Result<()> {
    let mut s = call(rt, crowded(rt)?, "02010000000000ff")?; // 12
    s = call(rt, s, "0201000000000100")?; // 16 and 12
    s = call(rt, s, "0b00000000000000")?;
    s = call(rt, s, "02010000000000ff")?; // 12
    s = call(rt, s, "02010000ffffffff")?; // 16 and 12
    s = call(rt, s, "0202000000000100")?; // 3 and 16
    call(rt, s, "0200000000000100")?; // 16
    s = call(rt, unsound(rt)?, "0200000000000100")?; // 2 and 16
    call(rt, s, "0202000000000100")?; // 2, 3 and 16
    Ok(())
}

// W-203. Worker 0: an unsafe EX, of a VAR of worker 1, and an exported VAR of caller 9, which worker 1 reads.
fn read_variable(rt: &impl Print) -> io::Result<State> {
    let mut s = call(rt, all_free(0), "0102000000000000")?;
    s = call(rt, s, "0201000000000004")?;
    s = call(rt, s, "0501000000000000")?; // export
    s = call(rt, s, "0b00000000000000")?;
    s = call(rt, s, "0200000000000009")?;
    s = call(rt, s, "0500010100000000")?; // export
    s = call(rt, s, "0b00000000000000")?;
    s = call(rt, s, "0901010000000000")?; // read
    call(rt, s, "0b00000000000000") // it waits for the VAR
}

// "Refusal 8 is given only for an EX that is not known": idle, then reading. A VAR that is not exported becomes a REF. Then the EX is known.
fn known_at_last(rt: &impl Print) -> io::Result<State> {
    let mut s = call(rt, read_variable(rt)?, "0400010000000000")?; // 8
    s = call(rt, s, "020000000000000a")?;
    s = call(rt, s, "0400020000000000")?; // bind
    s = call(rt, s, "0900020000000000")?; // read
    s = call(rt, s, "0400010000000000")?; // 8
    s = call(rt, s, "03010000ffffffff")?; // set
    s = call(rt, s, "0b01000000000000")?;
    call(rt, s, "0b01000000000000") // known
}

// "binding to a known EX makes the cell VAL with that value, exported or not": by the REF, not exported, and the exported VAR that was refused.
fn bound_to_known(rt: &impl Print) -> io::Result<State> {
    let mut s = call(rt, known_at_last(rt)?, "020000000000000b")?;
    s = call(rt, s, "0400030200000000")?; // bind, by the REF
    call(rt, s, "0400010000000000") // bind
}

// The read that waited is answered. "and names no EX": once the REF is dropped, the EX can be dropped too.
fn answered_and_dropped(rt: &impl Print) -> io::Result<()> {
    let mut s = call(rt, bound_to_known(rt)?, "0b00000000000000")?;
    s = call(rt, s, "0b00000000000000")?;
    s = call(rt, s, "0901010000000000")?; // read
    s = call(rt, s, "0800020000000000")?; // drop of the REF
    call(rt, s, "0800000000000000")?; // drop
    Ok(())
}

// An exported VAR by a REF to a safe EX that is known: "VAL with that value", whatever the chain ends in.
fn bound_to_known_zero(rt: &impl Print) -> io::Result<()> {
    let mut s = call(rt, knowing(rt)?, "0401010200000000")?; // bind, by the REF
    s = call(rt, s, "0401010000000000")?; // 6
    s = call(rt, s, "0900010000000000")?; // read
    s = call(rt, s, "0b00000000000000")?;
    s = call(rt, s, "0b00000000000000")?;
    call(rt, s, "0900010000000000")?;
    Ok(())
}

fn main(rt: HostRuntime) -> io::Result<()> {
    carried_and_kept(&rt)?;
    left_until_freed(&rt)?;
    of_hand_made_cells(&rt)?;
    refused_in_order(&rt)?;
    answered_and_dropped(&rt)?;
    bound_to_known_zero(&rt)
}
