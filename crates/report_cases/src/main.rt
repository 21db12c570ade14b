// The cost report (W-202): lists of charges on states reached from a start and on states made by hand. A report is written as its name and
// code, each caller whose total is not 0 with that total, how many charges were placed and how many not, and the unplaced total.
#![tactic(auto)]

ghost use Rattle.std.specs.Prelude.{◌≤◌};

use cases_parts::{idle, live, tainted};
use changes::all_free;
use lookups::{put_cell, put_entry};
use reports::Charge;
use std::io;
use tables::{Kind, State};

// ---- reports

fn charge(worker: u8, cell: u8, amount: i32) -> Charge {
    Charge {
        worker,
        cell,
        amount,
    }
}

fn show(rt: &impl Print, name: &str, s: State, charges: &[Charge]) -> io::Result<()> {
    let report = reports::report(s, charges);
    let code = frames::code_of(report.outcome);
    print!(rt; "{name}: {code:02x}")?;
    for (who, total) in report.totals.iter().enumerate() {
        if *total != 0 {
            print!(rt; "; {who}: {total}")?;
        }
    }
    let placed = report.placed;
    let missed = report.missed;
    let unplaced = report.unplaced;
    println!(rt; "; placed {placed}, unplaced {missed}: {unplaced}")
}

// The same charge n times.
fn many(rt: &impl Print, name: &str, s: State, each: Charge, n: usize) -> io::Result<()>
    requires { n ≤ 65536 }
{
    let list = [each; 65536];
    show(rt, name, s, &list[..n])
}

// ---- states

fn after(rt: &impl Print, s: State, frame: &[u8]) -> io::Result<State> {
    let Some(q) = frames::decode(frame) else {
        println!(rt; "no frame")?;
        return Ok(s);
    };
    Ok(calls::step(s, q).state)
}

// Two workers: a VAR of caller 7 at worker 0, an EX of it at worker 1, and beside that a VAR of caller 9.
fn shared(rt: &impl Print) -> io::Result<State> {
    let mut s = after(rt, all_free(0), b"0102000000000000")?;
    s = after(rt, s, b"0200000000000007")?; // new at 0, of caller 7: cell 0
    s = after(rt, s, b"0500000100000000")?; // export to 1
    s = after(rt, s, b"0b00000000000000")?; // deliver: cell 0 at 1
    after(rt, s, b"0201000000000009") // new at 1, of caller 9: cell 1
}

// Three workers, two live entries. Worker 0: a VAR of caller 3, cell 0. Worker 1: an EX of it, cell 0, and a REF to that, cell 1, which was a VAR of
// caller 4 and exported. Worker 2: an EX of that REF, cell 0, and a REF to it, cell 1, which was a VAR of caller 5.
fn chained(rt: &impl Print) -> io::Result<State> {
    let mut s = after(rt, all_free(0), b"0103000000000000")?;
    s = after(rt, s, b"0200000000000003")?; // new at 0: cell 0
    s = after(rt, s, b"0500000100000000")?; // export to 1
    s = after(rt, s, b"0b00000000000000")?; // deliver: cell 0 at 1
    s = after(rt, s, b"0201000000000004")?; // new at 1: cell 1
    s = after(rt, s, b"0501010200000000")?; // export cell 1 to 2
    s = after(rt, s, b"0b00000000000000")?; // deliver: cell 0 at 2
    s = after(rt, s, b"0401010000000000")?; // bind cell 1 of worker 1 to its cell 0
    s = after(rt, s, b"0202000000000005")?; // new at 2: cell 1
    after(rt, s, b"0402010000000000") // bind cell 1 of worker 2 to its cell 0
}

// The same, the VAR set to 8 and read from worker 1: its EX, cell 0, is known.
fn known(rt: &impl Print) -> io::Result<State> {
    let mut s = after(rt, chained(rt)?, b"0300000000000008")?; // set
    s = after(rt, s, b"0901000000000000")?; // read cell 0 of worker 1: slot 0
    s = after(rt, s, b"0b00000000000000")?; // an Answer
    after(rt, s, b"0b00000000000000") // known
}

// One worker: VARs of callers 0, 1, 254 and 255.
fn four_callers(rt: &impl Print) -> io::Result<State> {
    let mut s = after(rt, all_free(0), b"0101000000000000")?;
    s = after(rt, s, b"0200000000000000")?;
    s = after(rt, s, b"0200000000000001")?;
    s = after(rt, s, b"02000000000000fe")?;
    after(rt, s, b"02000000000000ff")
}

// Two workers: the EX of each names the other's entry, and that entry the other's EX. A loop, sound, since both entries are tainted. And a VAR of
// caller 6.
fn looped() -> State {
    let mut s = put_cell(all_free(2), 0, 0, idle(1, 0, 1));
    s = put_cell(s, 1, 0, idle(0, 0, 1));
    s = put_cell(s, 1, 1, Kind::Var { caller: 6 });
    s = put_entry(s, 0, 0, tainted(0, 1));
    put_entry(s, 1, 0, tainted(0, 1))
}

// Two workers; an entry on which nothing is held.
fn unsound() -> State {
    let s = put_cell(all_free(2), 0, 0, Kind::Var { caller: 4 });
    put_entry(s, 0, 0, live(0, 1))
}

// ---- the cases

// README's three charges; the same in another order, one of them, and none.
fn three_charges(rt: &impl Print) -> io::Result<()> {
    let s = shared(rt)?;
    let list = [charge(0, 0, 250), charge(1, 0, 40), charge(1, 1, -15)];
    show(rt, "three charges", s, &list)?;
    let back = [charge(1, 1, -15), charge(1, 0, 40), charge(0, 0, 250)];
    show(rt, "in another order", s, &back)?;
    show(rt, "one charge", s, &list[..1])?;
    show(rt, "no charge", s, &[])
}

// "signed amounts widened and added, corrections negative, exact at zero and at both range ends"
fn at_the_ends(rt: &impl Print) -> io::Result<()> {
    let s = four_callers(rt)?;
    let each = [
        charge(0, 0, 0),
        charge(0, 1, -1),
        charge(0, 2, -2147483648),
        charge(0, 3, 2147483647),
        charge(0, 9, -1),
    ];
    show(rt, "each to its own", s, &each)?;
    let one = [
        charge(0, 3, 0),
        charge(0, 3, -1),
        charge(0, 3, -2147483648),
        charge(0, 3, 2147483647),
        charge(0, 3, -1),
    ];
    show(rt, "all to one", s, &one)?;
    let corrected = [charge(0, 3, 2147483647), charge(0, 3, -2147483647)];
    show(rt, "corrected", s, &corrected)
}

// "At most 65,535 charges."
fn long_lists(rt: &impl Print) -> io::Result<()> {
    let s = four_callers(rt)?;
    let lowest = charge(0, 3, -2147483648);
    many(rt, "65535, the lowest", s, lowest, 65535)?;
    many(rt, "65536", s, lowest, 65536)?;
    many(rt, "65535, the highest", s, charge(0, 0, 2147483647), 65535)?;
    many(
        rt,
        "65535, a free cell",
        s,
        charge(0, 4, -2147483648),
        65535,
    )
}

// "following ends and references from its cell to a VAR or VAL": REF, EX, REF, EX, which is two references, as many as there are live entries;
// and through an EX that is known.
fn chains(rt: &impl Print) -> io::Result<()> {
    let list = [
        charge(2, 1, 1),
        charge(2, 0, 10),
        charge(1, 1, 100),
        charge(1, 0, 1000),
        charge(0, 0, 10000),
    ];
    show(rt, "a chain", chained(rt)?, &list)?;
    show(rt, "through a known EX", known(rt)?, &list)?;
    let round = [charge(0, 0, 1), charge(1, 0, 10), charge(1, 1, 100)];
    show(rt, "a loop", looped(), &round)
}

// "A charge whose worker or cell number is out of range, or whose cell is free, is unplaced"; the last of five is placed, except on the closed state.
fn unplaced(rt: &impl Print) -> io::Result<()> {
    let s = shared(rt)?;
    let free = [
        charge(0, 1, 1),
        charge(0, 31, 10),
        charge(1, 2, 100),
        charge(1, 31, 1000),
        charge(0, 0, 10000),
    ];
    show(rt, "free cells", s, &free)?;
    let workers = [
        charge(2, 0, 1),
        charge(7, 0, 10),
        charge(8, 0, 100),
        charge(255, 0, 1000),
        charge(0, 0, 10000),
    ];
    show(rt, "no such worker", s, &workers)?;
    let cells = [
        charge(0, 32, 1),
        charge(1, 32, 10),
        charge(0, 255, 100),
        charge(255, 255, 1000),
        charge(0, 0, 10000),
    ];
    show(rt, "no such cell", s, &cells)?;
    show(rt, "the closed state", all_free(0), &free)
}

// "Refusals: 2; then 17 for a longer list; both leave all totals and both numbers of charges 0."
fn refused(rt: &impl Print) -> io::Result<()> {
    let each = charge(0, 0, 1);
    many(rt, "not sound", unsound(), each, 5)?;
    many(rt, "not sound, 65536", unsound(), each, 65536)?;
    many(rt, "not sound, none", unsound(), each, 0)
}

fn main(rt: HostRuntime) -> io::Result<()> {
    three_charges(&rt)?;
    at_the_ends(&rt)?;
    long_lists(&rt)?;
    chains(&rt)?;
    unplaced(&rt)?;
    refused(&rt)
}
