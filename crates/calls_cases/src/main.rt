// Puts every call, with each of its answers and refusals but for 16 (that is in caller_cases), to hand-made states and writes what is done, a
// line each: a state that is made; a call, the three bytes of its frame and the answer as the text program prints it; or a look, a number of
// the state between calls. A refused call hands its state on to the next, and a bound or a read after a row of refusals shows that it is as it was.
#![tactic(auto)]

use cases_parts::{ex, idle, live, tainted};
use lookups::{put_cell, put_entry, put_message};
use std::io;
use tables::{Call, Kind, Reply, State, Status};

// ---- parts

fn known(owner: u8, entry: u8, weight: u32, n: u32) -> Kind {
    ex(owner, entry, weight, Status::Known(n), false)
}

// ---- states

// Worker 0: a VAR, a VAL and an unsafe EX that are exported, a VAR and a VAL that are not.
fn cells_of_0(s: State) -> State {
    let mut t = put_cell(s, 0, 0, Kind::Var { caller: 0 });
    t = put_cell(t, 0, 1, Kind::Val { n: 7, caller: 0 });
    t = put_cell(t, 0, 2, idle(1, 0, 100));
    t = put_cell(t, 0, 3, Kind::Var { caller: 0 });
    put_cell(t, 0, 4, Kind::Val { n: 9, caller: 0 })
}

// Worker 1: a safe EX, a REF to it, a known EX, an exported VAR and one that is not, an EX unsafe by its taint, a VAL.
fn cells_of_1(s: State) -> State {
    let mut t = put_cell(s, 1, 0, idle(0, 0, 1000));
    t = put_cell(t, 1, 1, Kind::Ref(0));
    t = put_cell(t, 1, 2, known(0, 1, 3, 7));
    t = put_cell(t, 1, 3, Kind::Var { caller: 0 });
    t = put_cell(t, 1, 4, Kind::Var { caller: 0 });
    t = put_cell(t, 1, 5, idle(0, 2, 1));
    put_cell(t, 1, 6, Kind::Val { n: 5, caller: 0 })
}

// Worker 2: a reading EX, an asking one, a safe one that is exported, a VAR. Worker 3: two EX.
fn cells_of_2_and_3(s: State) -> State {
    let mut t = put_cell(s, 2, 0, ex(0, 0, 500, Status::Reading, false));
    t = put_cell(t, 2, 1, ex(0, 1, 200, Status::Idle, true));
    t = put_cell(t, 2, 2, idle(1, 0, 50));
    t = put_cell(t, 2, 3, Kind::Var { caller: 0 });
    t = put_cell(t, 3, 0, idle(2, 0, 1));
    put_cell(t, 3, 1, idle(0, 0, 10))
}

fn entries(s: State) -> State {
    let mut t = put_entry(s, 0, 0, live(0, 1510));
    t = put_entry(t, 0, 1, live(1, 203));
    t = put_entry(t, 0, 2, tainted(2, 1));
    t = put_entry(t, 1, 0, live(3, 150));
    put_entry(t, 2, 0, live(2, 1))
}

// The Read of the reading EX, which is not ready, and the Ask of the asking one.
fn messages(s: State) -> State {
    let t = put_message(s, 0, cases_parts::read(2, 0, 0, 0));
    put_message(t, 1, cases_parts::ask(2, 1, 0, 1))
}

// Four workers, five live entries, slots from 2 on empty; bound is 8.
fn base(rt: &impl Print) -> io::Result<State> {
    println!(rt; "base")?;
    let s = cells_of_1(cells_of_0(changes::all_free(4)));
    Ok(messages(entries(cells_of_2_and_3(s))))
}

// The base, but entry 0 of worker 0 weighs one more than is held on it.
fn unsound(rt: &impl Print) -> io::Result<State> {
    let s = base(rt)?;
    println!(rt; "unsound")?;
    Ok(put_entry(s, 0, 0, live(0, 1511)))
}

// The cells of worker w from one number to below another are VARs.
fn crowd(rt: &impl Print, s: State, w: u8, from: u8, below: u8) -> io::Result<State> {
    println!(rt; "crowd {w:02x}{from:02x}{below:02x}")?;
    let mut t = s;
    for c in from..below {
        t = put_cell(t, w, c, Kind::Var { caller: 0 });
    }
    Ok(t)
}

// The empty slots of the base hold Releases of weight 1 of entry 1 of worker 0.
fn fill_slots(rt: &impl Print, s: State) -> io::Result<State> {
    println!(rt; "fill-slots")?;
    let release = cases_parts::release(0, 1, 1);
    let mut t = put_entry(s, 0, 1, live(1, 265));
    for k in 2..64u8 {
        t = put_message(t, k, release);
    }
    Ok(t)
}

// Every entry of worker 0 is live: entry e, from 3 on, names cell e and is held by cell e of worker 3. Its cells 16, a VAR, and 17, an
// unsafe EX, are not exported.
fn full_entries(rt: &impl Print) -> io::Result<State> {
    let mut s = base(rt)?;
    println!(rt; "full-entries")?;
    s = put_cell(s, 0, 16, Kind::Var { caller: 0 });
    s = put_cell(s, 0, 17, idle(1, 1, 5));
    s = put_entry(s, 1, 1, live(4, 5));
    for e in 3..16u8 {
        s = put_cell(s, 0, e, Kind::Var { caller: 0 });
        s = put_entry(s, 0, e, live(e, 1));
        s = put_cell(s, 3, e, idle(0, e, 1));
    }
    Ok(s)
}

// Entry 0 of worker 0, a VAR's, of that weight, all but 510 of it held by cell 0 of worker 1.
fn heavy_var(rt: &impl Print, s: State, weight: u32, held: u32) -> io::Result<State> {
    println!(rt; "heavy-var 00{weight:08x}")?;
    Ok(put_entry(put_cell(s, 1, 0, idle(0, 0, held)), 0, 0, live(0, weight)))
}

// Entry 1 of worker 0, a VAL's, of that weight, all but 200 of it held by the known EX of worker 1.
fn heavy_val(rt: &impl Print, weight: u32, held: u32) -> io::Result<State> {
    let s = base(rt)?;
    println!(rt; "heavy-val 00{weight:08x}")?;
    Ok(put_entry(
        put_cell(s, 1, 2, known(0, 1, held, 7)),
        0,
        1,
        live(1, weight),
    ))
}

// Entry 0 of worker 2, an EX's, of that weight, all held by cell 0 of worker 3.
fn heavy_ex(rt: &impl Print, weight: u32) -> io::Result<State> {
    let s = base(rt)?;
    println!(rt; "heavy-ex 00{weight:08x}")?;
    Ok(put_entry(put_cell(s, 3, 0, idle(2, 0, weight)), 2, 0, live(2, weight)))
}

// The base with the exported VAR of worker 1 and the EX that names it, of worker 2, tainted.
fn tainted_var(rt: &impl Print) -> io::Result<State> {
    let s = base(rt)?;
    println!(rt; "tainted-var")?;
    Ok(put_entry(put_entry(s, 1, 0, tainted(3, 150)), 2, 0, tainted(2, 1)))
}

// The base with REFs to the known EX in place of the two VARs of worker 1.
fn known_refs(rt: &impl Print) -> io::Result<State> {
    let s = base(rt)?;
    println!(rt; "known-refs")?;
    Ok(put_cell(put_cell(s, 1, 3, Kind::Ref(2)), 1, 4, Kind::Ref(2)))
}

// The base with an unsafe EX of worker 0 that is not exported: its owner is worker 1.
fn owner_above(rt: &impl Print) -> io::Result<State> {
    let s = base(rt)?;
    println!(rt; "owner-above")?;
    Ok(put_cell(put_entry(s, 1, 1, live(4, 5)), 0, 5, idle(1, 1, 5)))
}

// ---- a call: its line, and the state after it; a function for each, since each is tried as it stands in its crate, and `step` over all

fn show(rt: &impl Print, name: &str, a: u8, b: u8, c: u8, reply: Reply) -> io::Result<State> {
    let code = frames::code_of(reply.outcome);
    let value = frames::value_of(reply.outcome);
    println!(rt; "{name} {a:02x}{b:02x}{c:02x} {code:02x}{value:08x}")?;
    Ok(reply.state)
}

fn start(rt: &impl Print, p: u8) -> io::Result<State> {
    show(rt, "start", p, 0, 0, quiet::start(p))
}

fn new(rt: &impl Print, s: State, w: u8) -> io::Result<State> {
    show(rt, "new", w, 0, 0, quiet::new(s, w, 0))
}

fn set(rt: &impl Print, s: State, w: u8, c: u8, n: u32) -> io::Result<State> {
    show(rt, "set", w, c, 0, quiet::set(s, w, c, n))
}

fn bind(rt: &impl Print, s: State, w: u8, c: u8, x: u8) -> io::Result<State> {
    show(rt, "bind", w, c, x, quiet::bind(s, w, c, x))
}

fn export(rt: &impl Print, s: State, w: u8, c: u8, to: u8) -> io::Result<State> {
    show(rt, "export", w, c, to, sending::export(s, w, c, to))
}

fn indirect(rt: &impl Print, s: State, w: u8, c: u8, to: u8) -> io::Result<State> {
    show(rt, "indirect", w, c, to, sending::indirect(s, w, c, to))
}

fn transfer(rt: &impl Print, s: State, w: u8, c: u8, to: u8) -> io::Result<State> {
    show(rt, "transfer", w, c, to, sending::transfer(s, w, c, to))
}

fn drop(rt: &impl Print, s: State, w: u8, c: u8) -> io::Result<State> {
    show(rt, "drop", w, c, 0, sending::drop(s, w, c))
}

fn read(rt: &impl Print, s: State, w: u8, c: u8) -> io::Result<State> {
    show(rt, "read", w, c, 0, sending::read(s, w, c))
}

fn ask(rt: &impl Print, s: State, w: u8, c: u8) -> io::Result<State> {
    show(rt, "ask", w, c, 0, sending::ask(s, w, c))
}

fn deliver(rt: &impl Print, s: State, slot: u8) -> io::Result<State> {
    show(rt, "deliver", slot, 0, 0, deliveries::deliver(s, slot))
}

fn bound(rt: &impl Print, s: State) -> io::Result<State> {
    show(rt, "bound", 0, 0, 0, quiet::bound(s))
}

// The call is not written, its answer is.
fn step(rt: &impl Print, s: State, q: Call) -> io::Result<State> {
    let reply = calls::step(s, q);
    let code = frames::code_of(reply.outcome);
    let value = frames::value_of(reply.outcome);
    println!(rt; "step {code:02x}{value:08x}")?;
    Ok(reply.state)
}

// ---- looks

fn look(rt: &impl Print, name: &str, w: u8, i: u8, n: u32) -> io::Result<()> {
    println!(rt; "{name} {w:02x}{i:02x}00 00{n:08x}")
}

fn broken_point(rt: &impl Print, s: State) -> io::Result<()> {
    look(rt, "broken-point", 0, 0, u32::from(sound::broken_place(&s)))
}

fn ex_weight(rt: &impl Print, s: State, w: u8, c: u8) -> io::Result<()> {
    let k = lookups::cell_at(&s.cells, w, c);
    look(rt, "ex-weight", w, c, parts::ex_weight(k))
}

// The weight of an entry, 0 where it is free.
fn weight(rt: &impl Print, s: State, w: u8, e: u8) -> io::Result<()> {
    let x = lookups::entry_at(&s.entries, w, e);
    look(rt, "weight", w, e, parts::entry_weight(x))
}

// 1 for a tainted entry, 0 for another.
fn taint(rt: &impl Print, s: State, w: u8, e: u8) -> io::Result<()> {
    let x = lookups::entry_at(&s.entries, w, e);
    look(rt, "taint", w, e, u32::from(parts::is_tainted(x)))
}

// ---- start

fn starts_refused(rt: &impl Print) -> io::Result<()> {
    let mut s = start(rt, 0)?;
    s = new(rt, s, 0)?;
    s = start(rt, 9)?;
    s = new(rt, s, 0)?;
    s = start(rt, 255)?;
    s = deliver(rt, s, 0)?;
    bound(rt, s)?;
    Ok(())
}

fn starts(rt: &impl Print) -> io::Result<()> {
    let mut s = start(rt, 1)?;
    s = new(rt, s, 0)?;
    s = new(rt, s, 1)?;
    s = start(rt, 8)?;
    s = new(rt, s, 7)?;
    s = new(rt, s, 8)?;
    bound(rt, s)?;
    Ok(())
}

// ---- 2: the state is not sound

fn not_sound_cells(rt: &impl Print) -> io::Result<()> {
    let mut s = new(rt, unsound(rt)?, 0)?;
    s = set(rt, s, 0, 3, 1)?;
    s = bind(rt, s, 1, 4, 0)?;
    s = drop(rt, s, 0, 3)?;
    s = read(rt, s, 0, 1)?;
    s = ask(rt, s, 1, 0)?;
    weight(rt, s, 0, 0)
}

fn not_sound_messages(rt: &impl Print) -> io::Result<()> {
    let mut s = export(rt, unsound(rt)?, 0, 0, 1)?;
    s = indirect(rt, s, 1, 0, 2)?;
    s = transfer(rt, s, 3, 1, 2)?;
    s = deliver(rt, s, 1)?;
    s = bound(rt, s)?;
    broken_point(rt, s)
}

fn not_sound_first(rt: &impl Print) -> io::Result<()> {
    let mut s = new(rt, unsound(rt)?, 4)?;
    s = export(rt, s, 4, 32, 4)?;
    s = deliver(rt, s, 64)?;
    s = deliver(rt, s, 0)?;
    weight(rt, s, 0, 0)
}

// ---- new

fn new_cells(rt: &impl Print) -> io::Result<()> {
    let mut s = new(rt, base(rt)?, 4)?;
    s = new(rt, s, 255)?;
    s = bound(rt, s)?;
    s = new(rt, s, 1)?;
    s = read(rt, s, 1, 7)?; // is a var
    s = drop(rt, s, 1, 6)?;
    new(rt, s, 1)?; // lowest
    Ok(())
}

fn new_room(rt: &impl Print) -> io::Result<()> {
    let mut s = new(rt, crowd(rt, base(rt)?, 3, 2, 31)?, 3)?; // last cell
    s = new(rt, s, 3)?; // no cell
    s = read(rt, s, 3, 31)?;
    new(rt, s, 2)?; // room elsewhere
    Ok(())
}

fn new_booked(rt: &impl Print) -> io::Result<()> {
    let mut s = export(rt, crowd(rt, base(rt)?, 3, 2, 30)?, 0, 3, 3)?; // booking
    s = new(rt, s, 3)?; // above booked
    s = new(rt, s, 3)?; // booked
    s = bound(rt, s)?;
    s = deliver(rt, s, 2)?; // booked delivered
    new(rt, s, 3)?; // nothing booked
    Ok(())
}

// ---- set

fn set_refused(rt: &impl Print) -> io::Result<()> {
    let mut s = set(rt, base(rt)?, 4, 3, 1)?;
    s = set(rt, s, 4, 32, 1)?;
    s = set(rt, s, 0, 32, 1)?;
    s = set(rt, s, 0, 255, 1)?;
    s = set(rt, s, 0, 31, 1)?; // free
    bound(rt, s)?;
    Ok(())
}

fn set_kinds(rt: &impl Print) -> io::Result<()> {
    let mut s = set(rt, base(rt)?, 0, 4, 1)?; // val
    s = set(rt, s, 1, 1, 1)?; // ref
    s = set(rt, s, 1, 0, 1)?; // ex
    s = read(rt, s, 0, 4)?;
    s = set(rt, s, 0, 3, 0xffff_ffff)?;
    s = read(rt, s, 0, 3)?;
    s = set(rt, s, 0, 3, 1)?; // again
    read(rt, s, 0, 3)?;
    Ok(())
}

fn set_exported(rt: &impl Print) -> io::Result<()> {
    let mut s = set(rt, base(rt)?, 0, 0, 6)?; // exported
    s = deliver(rt, s, 0)?;
    s = deliver(rt, s, 0)?; // exported answer
    read(rt, s, 2, 0)?; // exported known
    Ok(())
}

// ---- bind

fn bind_cells(rt: &impl Print) -> io::Result<()> {
    let mut s = bind(rt, base(rt)?, 4, 32, 32)?;
    s = bind(rt, s, 1, 32, 0)?;
    s = bind(rt, s, 1, 31, 0)?; // c free
    s = bind(rt, s, 1, 4, 32)?;
    s = bind(rt, s, 1, 4, 31)?; // x free
    s = bind(rt, s, 1, 6, 31)?; // c val x free
    s = bind(rt, s, 1, 31, 4)?; // c free x var
    bound(rt, s)?;
    Ok(())
}

fn bind_kinds(rt: &impl Print) -> io::Result<()> {
    let mut s = bind(rt, base(rt)?, 1, 6, 0)?; // c val
    s = bind(rt, s, 1, 1, 0)?; // c ref
    s = bind(rt, s, 1, 0, 2)?; // c ex
    s = bind(rt, s, 1, 4, 3)?; // x var
    s = bind(rt, s, 1, 4, 6)?; // x val
    s = bind(rt, s, 1, 4, 4)?; // x itself
    s = bind(rt, s, 1, 3, 4)?; // exported x var
    read(rt, s, 1, 4)?;
    Ok(())
}

fn bind_unsafe(rt: &impl Print) -> io::Result<()> {
    let mut s = bind(rt, base(rt)?, 1, 3, 5)?; // exported tainted
    s = bind(rt, s, 0, 0, 2)?; // exported owner above
    s = read(rt, s, 1, 3)?;
    s = bound(rt, s)?;
    s = bind(rt, s, 1, 4, 5)?; // tainted
    s = bind(rt, s, 0, 3, 2)?; // owner above
    read(rt, s, 0, 3)?;
    Ok(())
}

fn bind_safe(rt: &impl Print) -> io::Result<()> {
    let mut s = bind(rt, base(rt)?, 1, 3, 0)?; // exported safe
    s = read(rt, s, 1, 3)?;
    s = bind(rt, s, 1, 4, 1)?; // x ref
    s = read(rt, s, 1, 4)?;
    s = drop(rt, s, 1, 1)?;
    read(rt, s, 1, 4)?; // x ref names the end
    Ok(())
}

fn bind_known(rt: &impl Print) -> io::Result<()> {
    let mut s = bind(rt, base(rt)?, 1, 3, 2)?; // exported known
    s = read(rt, s, 1, 3)?;
    s = bind(rt, s, 1, 4, 2)?; // known
    s = set(rt, s, 1, 4, 1)?; // val
    drop(rt, s, 1, 2)?; // no ref names it
    Ok(())
}

fn bind_own_taint(rt: &impl Print) -> io::Result<()> {
    let mut s = bind(rt, tainted_var(rt)?, 1, 3, 5)?; // own taint unsafe
    s = export(rt, s, 1, 3, 2)?;
    taint(rt, s, 1, 0)?; // keeps the mark
    weight(rt, s, 1, 0)?;
    s = bind(rt, s, 1, 3, 0)?; // own taint safe
    taint(rt, s, 1, 0) // keeps the mark
}

// ---- export

fn export_workers(rt: &impl Print) -> io::Result<()> {
    let mut s = export(rt, base(rt)?, 4, 3, 0)?;
    s = export(rt, s, 0, 3, 4)?;
    s = export(rt, s, 4, 3, 4)?;
    s = export(rt, s, 255, 32, 255)?;
    s = export(rt, s, 0, 3, 0)?; // to itself
    s = export(rt, s, 0, 32, 0)?;
    bound(rt, s)?;
    Ok(())
}

fn export_cells(rt: &impl Print) -> io::Result<()> {
    let mut s = export(rt, base(rt)?, 0, 32, 1)?;
    s = export(rt, s, 0, 31, 1)?; // free
    s = export(rt, s, 3, 0, 1)?; // weight 1
    ex_weight(rt, s, 3, 0)?;
    s = bind(rt, s, 1, 4, 5)?;
    s = export(rt, s, 1, 4, 2)?; // weight 1 ref
    bound(rt, s)?;
    Ok(())
}

fn export_ceiling(rt: &impl Print) -> io::Result<()> {
    let mut s = export(rt, heavy_var(rt, base(rt)?, 1047552, 1047042)?, 0, 0, 3)?; // to the ceiling
    weight(rt, s, 0, 0)?; // ceiling
    s = export(rt, s, 0, 0, 3)?; // at the ceiling
    weight(rt, s, 0, 0)?;
    s = bound(rt, s)?;
    s = export(rt, s, 1, 0, 3)?; // ceiling by reference
    export(rt, heavy_var(rt, base(rt)?, 1047553, 1047043)?, 0, 0, 3)?; // past the ceiling
    Ok(())
}

fn export_entries(rt: &impl Print) -> io::Result<()> {
    let mut s = export(rt, full_entries(rt)?, 0, 16, 1)?;
    s = bound(rt, s)?;
    s = export(rt, s, 0, 0, 1)?;
    weight(rt, s, 0, 0)?;
    export(
        rt,
        heavy_var(rt, full_entries(rt)?, 1048576, 1048066)?,
        0,
        0,
        1,
    )?; // ceiling and entries
    Ok(())
}

fn export_room(rt: &impl Print) -> io::Result<()> {
    let mut s = export(rt, crowd(rt, base(rt)?, 3, 2, 32)?, 0, 3, 3)?; // no room
    s = export(rt, s, 1, 0, 3)?; // no room would join
    s = bound(rt, s)?;
    s = export(rt, s, 1, 0, 2)?; // room elsewhere
    export(rt, crowd(rt, base(rt)?, 0, 5, 32)?, 1, 0, 0)?; // no room would go home
    Ok(())
}

fn export_booked(rt: &impl Print) -> io::Result<()> {
    let mut s = export(rt, crowd(rt, base(rt)?, 3, 2, 31)?, 0, 0, 3)?; // books
    s = export(rt, s, 0, 3, 3)?; // booked
    s = deliver(rt, s, 2)?; // booked joins
    ex_weight(rt, s, 3, 1)?; // booked joined
    s = export(rt, s, 0, 3, 3)?; // unbooked
    weight(rt, s, 0, 3)
}

fn export_location(rt: &impl Print) -> io::Result<()> {
    let mut s = export(rt, base(rt)?, 0, 4, 1)?; // val
    weight(rt, s, 0, 3)?;
    taint(rt, s, 0, 3)?;
    s = deliver(rt, s, 2)?; // val makes an ex
    s = deliver(rt, s, 2)?; // val slot empty
    s = read(rt, s, 1, 7)?;
    s = deliver(rt, s, 2)?; // val read to answer
    s = deliver(rt, s, 2)?; // val answer
    read(rt, s, 1, 7)?; // val known
    Ok(())
}

fn export_reference(rt: &impl Print) -> io::Result<()> {
    let mut s = export(rt, base(rt)?, 1, 2, 3)?; // weight 3
    ex_weight(rt, s, 1, 2)?;
    s = read(rt, s, 1, 2)?; // weight 3 known
    s = deliver(rt, s, 2)?; // weight 3 delivered
    ex_weight(rt, s, 3, 2)?; // weight 3 sent
    s = export(rt, s, 3, 2, 1)?; // weight 3 on
    weight(rt, s, 0, 1)?;
    read(rt, s, 3, 2)?; // weight 3 idle
    Ok(())
}

fn export_ref(rt: &impl Print) -> io::Result<()> {
    let mut s = export(rt, base(rt)?, 1, 1, 2)?; // ref
    ex_weight(rt, s, 1, 0)?;
    s = deliver(rt, s, 2)?; // ref joins
    ex_weight(rt, s, 2, 0)?; // ref joined
    s = read(rt, s, 2, 0)?; // ref still reading
    s = export(rt, s, 2, 0, 0)?; // reading
    s = deliver(rt, s, 2)?; // reading home
    weight(rt, s, 0, 0)
}

// ---- indirect

fn indirect_workers(rt: &impl Print) -> io::Result<()> {
    let mut s = indirect(rt, base(rt)?, 4, 0, 1)?;
    s = indirect(rt, s, 1, 0, 4)?;
    s = indirect(rt, s, 4, 0, 4)?;
    s = indirect(rt, s, 1, 0, 1)?; // to itself
    s = indirect(rt, s, 1, 32, 1)?;
    bound(rt, s)?;
    Ok(())
}

fn indirect_cells(rt: &impl Print) -> io::Result<()> {
    let mut s = indirect(rt, base(rt)?, 1, 32, 2)?;
    s = indirect(rt, s, 1, 31, 2)?; // free
    s = indirect(rt, s, 1, 4, 2)?; // var
    s = indirect(rt, s, 1, 6, 2)?; // val
    s = read(rt, s, 1, 6)?;
    bound(rt, s)?;
    Ok(())
}

fn indirect_limits(rt: &impl Print) -> io::Result<()> {
    let mut s = indirect(rt, heavy_ex(rt, 1047552)?, 2, 2, 3)?; // to the ceiling
    s = indirect(rt, s, 2, 2, 3)?; // at the ceiling
    weight(rt, s, 2, 0)?;
    indirect(rt, heavy_ex(rt, 1047553)?, 2, 2, 3)?; // past the ceiling
    s = indirect(rt, full_entries(rt)?, 0, 17, 3)?;
    bound(rt, s)?;
    Ok(())
}

fn indirect_room(rt: &impl Print) -> io::Result<()> {
    let mut s = indirect(rt, crowd(rt, base(rt)?, 3, 2, 32)?, 1, 0, 3)?; // no room
    s = indirect(rt, s, 2, 2, 3)?; // no room would join
    s = bound(rt, s)?;
    indirect(rt, s, 1, 0, 2)?; // room elsewhere
    Ok(())
}

fn indirect_safe(rt: &impl Print) -> io::Result<()> {
    let mut s = indirect(rt, base(rt)?, 1, 0, 3)?; // safe
    weight(rt, s, 1, 1)?;
    taint(rt, s, 1, 1)?;
    ex_weight(rt, s, 1, 0)?;
    s = deliver(rt, s, 2)?; // safe delivered
    s = indirect(rt, s, 1, 0, 3)?; // again
    weight(rt, s, 1, 1)?;
    s = deliver(rt, s, 2)?; // again joins
    ex_weight(rt, s, 3, 2) // again joined
}

fn indirect_ref(rt: &impl Print) -> io::Result<()> {
    let mut s = indirect(rt, base(rt)?, 1, 1, 3)?; // ref
    s = drop(rt, s, 1, 1)?; // ref not named
    s = drop(rt, s, 1, 0)?; // ref end named
    transfer(rt, s, 1, 0, 2)?; // ref end busy
    Ok(())
}

fn indirect_unsafe(rt: &impl Print) -> io::Result<()> {
    let mut s = indirect(rt, base(rt)?, 1, 5, 3)?; // tainted
    taint(rt, s, 1, 1)?;
    s = indirect(rt, s, 0, 2, 3)?;
    taint(rt, s, 0, 2)?; // keeps the mark
    weight(rt, s, 0, 2)
}

fn indirect_above(rt: &impl Print) -> io::Result<()> {
    let s = indirect(rt, owner_above(rt)?, 0, 5, 3)?; // owner above
    taint(rt, s, 0, 3)
}

// ---- transfer

fn transfer_workers(rt: &impl Print) -> io::Result<()> {
    let mut s = transfer(rt, base(rt)?, 4, 1, 0)?;
    s = transfer(rt, s, 3, 1, 4)?;
    s = transfer(rt, s, 4, 1, 4)?;
    s = transfer(rt, s, 3, 1, 3)?; // to itself
    s = transfer(rt, s, 3, 32, 3)?;
    bound(rt, s)?;
    Ok(())
}

fn transfer_cells(rt: &impl Print) -> io::Result<()> {
    let mut s = transfer(rt, base(rt)?, 3, 32, 1)?;
    s = transfer(rt, s, 3, 31, 1)?; // free
    s = transfer(rt, s, 0, 3, 1)?; // var
    s = transfer(rt, s, 0, 1, 1)?; // exported val
    s = transfer(rt, s, 1, 1, 2)?; // ref
    read(rt, s, 0, 1)?;
    Ok(())
}

fn transfer_busy(rt: &impl Print) -> io::Result<()> {
    let mut s = transfer(rt, base(rt)?, 2, 2, 3)?; // exported
    s = transfer(rt, s, 1, 0, 2)?; // referred
    s = transfer(rt, s, 2, 0, 3)?; // reading
    s = transfer(rt, s, 2, 1, 3)?; // asking
    s = read(rt, s, 2, 0)?;
    bound(rt, s)?;
    Ok(())
}

fn transfer_room(rt: &impl Print) -> io::Result<()> {
    let mut s = transfer(rt, crowd(rt, base(rt)?, 3, 2, 32)?, 1, 2, 3)?; // no room
    read(rt, s, 1, 2)?;
    s = transfer(rt, crowd(rt, base(rt)?, 2, 4, 32)?, 3, 1, 2)?; // no room would join
    s = transfer(rt, crowd(rt, s, 0, 5, 32)?, 3, 1, 0)?; // no room would go home
    transfer(rt, s, 3, 1, 1)?; // room elsewhere
    Ok(())
}

fn transfer_joins(rt: &impl Print) -> io::Result<()> {
    let mut s = transfer(rt, base(rt)?, 3, 1, 2)?;
    s = read(rt, s, 3, 1)?; // freed
    s = bound(rt, s)?;
    s = deliver(rt, s, 2)?; // joins
    ex_weight(rt, s, 2, 0)?; // joined
    read(rt, s, 2, 0)?; // still reading
    Ok(())
}

fn transfer_known(rt: &impl Print) -> io::Result<()> {
    let mut s = transfer(rt, base(rt)?, 1, 2, 3)?; // known
    s = deliver(rt, s, 2)?; // known delivered
    ex_weight(rt, s, 3, 2)?;
    read(rt, s, 3, 2)?; // known is idle
    Ok(())
}

fn transfer_home(rt: &impl Print) -> io::Result<()> {
    let mut s = transfer(rt, base(rt)?, 3, 1, 0)?; // home
    s = deliver(rt, s, 2)?; // home keeps
    weight(rt, s, 0, 0)?;
    s = transfer(rt, s, 1, 5, 0)?; // home weight 1
    s = deliver(rt, s, 2)?; // home frees
    weight(rt, s, 0, 2)?; // home freed
    drop(rt, s, 0, 2)?; // home not busy
    Ok(())
}

// ---- drop

fn drop_refused(rt: &impl Print) -> io::Result<()> {
    let mut s = drop(rt, base(rt)?, 4, 3)?;
    s = drop(rt, s, 4, 32)?;
    s = drop(rt, s, 0, 32)?;
    s = drop(rt, s, 0, 31)?; // free
    bound(rt, s)?;
    Ok(())
}

fn drop_exported(rt: &impl Print) -> io::Result<()> {
    let mut s = drop(rt, base(rt)?, 0, 0)?; // exported var
    s = drop(rt, s, 0, 1)?; // exported val
    s = drop(rt, s, 2, 2)?; // exported ex
    s = read(rt, s, 0, 1)?;
    s = bind(rt, s, 1, 3, 0)?;
    drop(rt, s, 1, 3)?; // exported ref
    Ok(())
}

fn drop_busy(rt: &impl Print) -> io::Result<()> {
    let mut s = drop(rt, base(rt)?, 1, 0)?; // referred
    s = drop(rt, s, 2, 0)?; // reading
    s = drop(rt, s, 2, 1)?; // asking
    s = read(rt, s, 2, 0)?;
    bound(rt, s)?;
    Ok(())
}

fn drop_kinds(rt: &impl Print) -> io::Result<()> {
    let mut s = drop(rt, base(rt)?, 0, 3)?; // var
    s = read(rt, s, 0, 3)?; // var freed
    s = drop(rt, s, 0, 4)?; // val
    s = drop(rt, s, 1, 1)?; // ref
    s = read(rt, s, 1, 1)?; // ref freed
    s = drop(rt, s, 1, 0)?; // ex
    s = read(rt, s, 1, 0)?; // ex freed
    s = deliver(rt, s, 2)?; // ex release keeps
    weight(rt, s, 0, 0)
}

fn drop_last(rt: &impl Print) -> io::Result<()> {
    let mut s = drop(rt, base(rt)?, 3, 0)?; // last
    s = bound(rt, s)?;
    s = deliver(rt, s, 2)?; // last release frees
    weight(rt, s, 2, 0)?;
    s = bound(rt, s)?; // last fewer entries
    drop(rt, s, 1, 2)?; // known
    Ok(())
}

// ---- read

fn read_refused(rt: &impl Print) -> io::Result<()> {
    let mut s = read(rt, base(rt)?, 4, 1)?;
    s = read(rt, s, 4, 32)?;
    s = read(rt, s, 0, 32)?;
    s = read(rt, s, 0, 31)?; // free
    bound(rt, s)?;
    Ok(())
}

fn read_answers(rt: &impl Print) -> io::Result<()> {
    let mut s = read(rt, base(rt)?, 0, 1)?; // val
    s = read(rt, s, 0, 3)?; // var
    s = read(rt, s, 1, 2)?; // known
    s = read(rt, s, 2, 0)?; // reading
    bound(rt, s)?;
    read(rt, known_refs(rt)?, 1, 4)?; // ref known
    Ok(())
}

fn read_sent(rt: &impl Print) -> io::Result<()> {
    let mut s = read(rt, base(rt)?, 1, 1)?; // ref
    s = read(rt, s, 1, 1)?; // ref waiting
    s = read(rt, s, 1, 0)?; // ref end waiting
    s = bound(rt, s)?;
    s = read(rt, s, 2, 1)?; // asking
    ask(rt, s, 2, 1)?; // still asking
    Ok(())
}

// ---- ask

fn ask_refused(rt: &impl Print) -> io::Result<()> {
    let mut s = ask(rt, base(rt)?, 4, 0)?;
    s = ask(rt, s, 1, 32)?;
    s = ask(rt, s, 1, 31)?; // free
    s = ask(rt, s, 1, 4)?; // var
    s = ask(rt, s, 1, 6)?; // val
    s = read(rt, s, 1, 6)?;
    bound(rt, s)?;
    Ok(())
}

fn ask_answers(rt: &impl Print) -> io::Result<()> {
    let mut s = ask(rt, base(rt)?, 2, 1)?; // asking
    s = ask(rt, s, 1, 2)?; // known
    s = ask(rt, s, 1, 2)?; // known waiting
    s = read(rt, s, 1, 2)?; // still known
    s = ask(rt, s, 1, 1)?; // ref
    s = ask(rt, s, 1, 0)?; // ref end waiting
    s = ask(rt, s, 2, 0)?; // reading
    bound(rt, s)?;
    Ok(())
}

// ---- full slots: a message that would be sent is refused, all else answers as ever

fn no_slot_to_send(rt: &impl Print) -> io::Result<()> {
    let mut s = export(rt, fill_slots(rt, base(rt)?)?, 0, 3, 1)?;
    s = export(rt, s, 1, 0, 2)?; // export by reference
    s = indirect(rt, s, 1, 0, 2)?;
    s = transfer(rt, s, 3, 1, 2)?;
    s = bound(rt, s)?;
    ex_weight(rt, s, 1, 0)
}

fn no_slot(rt: &impl Print) -> io::Result<()> {
    let mut s = drop(rt, fill_slots(rt, base(rt)?)?, 3, 1)?;
    s = read(rt, s, 1, 0)?;
    s = ask(rt, s, 1, 0)?;
    s = bound(rt, s)?;
    s = deliver(rt, s, 40)?;
    s = read(rt, s, 1, 0)?;
    ask(rt, s, 1, 0)?; // again ask
    Ok(())
}

fn full_slots_read(rt: &impl Print) -> io::Result<()> {
    let mut s = read(rt, fill_slots(rt, base(rt)?)?, 0, 1)?; // read val
    s = read(rt, s, 1, 2)?; // read known
    s = read(rt, s, 0, 0)?; // read var
    s = read(rt, s, 2, 0)?; // read reading
    s = ask(rt, s, 2, 1)?; // ask asking
    bound(rt, s)?;
    Ok(())
}

fn full_slots_change(rt: &impl Print) -> io::Result<()> {
    let mut s = drop(rt, fill_slots(rt, base(rt)?)?, 0, 3)?; // drop var
    s = drop(rt, s, 0, 4)?; // drop val
    s = drop(rt, s, 1, 1)?; // drop ref
    s = new(rt, s, 0)?;
    s = set(rt, s, 0, 3, 8)?;
    s = bind(rt, s, 1, 4, 0)?;
    deliver(rt, s, 1)?; // ask to supply
    Ok(())
}

// ---- several numbers apply: the lowest is given

fn order_full(rt: &impl Print) -> io::Result<()> {
    let mut s = export(
        rt,
        fill_slots(rt, crowd(rt, base(rt)?, 3, 2, 32)?)?,
        0,
        3,
        3,
    )?; // 12 before 13
    s = export(rt, s, 1, 0, 3)?; // 12 before 13
    s = indirect(rt, s, 1, 0, 3)?; // 12 before 13
    s = transfer(rt, s, 1, 2, 3)?; // 12 before 13
    s = export(rt, s, 1, 5, 3)?; // 9 before 12
    s = transfer(rt, s, 2, 0, 3)?; // 7 before 12
    s = transfer(rt, s, 0, 3, 3)?; // 6 before 12
    bound(rt, s)?;
    Ok(())
}

fn order_slots(rt: &impl Print) -> io::Result<()> {
    let mut s = drop(rt, fill_slots(rt, base(rt)?)?, 2, 0)?;
    s = drop(rt, s, 0, 31)?;
    s = read(rt, s, 0, 31)?;
    s = ask(rt, s, 1, 4)?; // 6 before 13
    s = indirect(rt, s, 1, 4, 2)?; // 6 before 13
    bound(rt, s)?;
    Ok(())
}

fn order_entries(rt: &impl Print) -> io::Result<()> {
    let heavy = heavy_var(rt, full_entries(rt)?, 1048576, 1048066)?;
    let crowded = crowd(rt, crowd(rt, heavy, 3, 2, 3)?, 3, 16, 32)?;
    let mut s = export(rt, crowded, 0, 0, 3)?; // 10 before 12
    s = export(rt, s, 0, 16, 3)?; // 11 before 12
    s = indirect(rt, s, 0, 17, 3)?; // 11 before 12
    s = export(rt, fill_slots(rt, s)?, 0, 16, 1)?; // 11 before 13
    indirect(rt, s, 0, 31, 1)?; // 5 before 6
    Ok(())
}

// ---- deliver

fn deliver_refused(rt: &impl Print) -> io::Result<()> {
    let mut s = deliver(rt, base(rt)?, 64)?;
    s = deliver(rt, s, 255)?;
    s = deliver(rt, s, 2)?; // empty
    s = deliver(rt, s, 63)?; // empty 63
    s = deliver(rt, s, 0)?; // not ready
    s = read(rt, s, 2, 0)?;
    bound(rt, s)?;
    Ok(())
}

fn deliver_at_known(rt: &impl Print) -> io::Result<()> {
    let mut s = indirect(rt, base(rt)?, 1, 2, 3)?; // at known indirect
    s = deliver(rt, s, 2)?; // at known reference
    s = read(rt, s, 3, 2)?;
    s = bound(rt, s)?;
    s = deliver(rt, s, 2)?; // at known to answer
    s = bound(rt, s)?;
    s = deliver(rt, s, 2)?; // at known answer
    read(rt, s, 3, 2)?; // at known
    Ok(())
}

fn deliver_on(rt: &impl Print) -> io::Result<()> {
    let mut s = read(rt, base(rt)?, 3, 0)?;
    s = deliver(rt, s, 2)?; // on to a read
    s = bound(rt, s)?;
    s = deliver(rt, s, 2)?; // on not ready
    s = set(rt, s, 1, 3, 42)?;
    s = deliver(rt, s, 2)?; // on to answer
    s = deliver(rt, s, 2)?; // on answer
    s = read(rt, s, 3, 0)?; // on known
    read(rt, s, 2, 2)?; // on between idle
    Ok(())
}

fn deliver_at_ref(rt: &impl Print) -> io::Result<()> {
    let mut s = bind(rt, base(rt)?, 1, 3, 0)?;
    s = read(rt, s, 1, 0)?; // at ref reading
    s = read(rt, s, 2, 2)?;
    s = deliver(rt, s, 3)?; // at ref to a read
    s = deliver(rt, s, 3)?; // at ref not ready
    bound(rt, s)?;
    Ok(())
}

fn deliver_at_known_ref(rt: &impl Print) -> io::Result<()> {
    let mut s = read(rt, known_refs(rt)?, 2, 2)?;
    s = deliver(rt, s, 2)?; // at known ref to answer
    s = deliver(rt, s, 2)?; // at known ref answer
    read(rt, s, 2, 2)?; // at known ref
    Ok(())
}

fn deliver_ask(rt: &impl Print) -> io::Result<()> {
    let mut s = deliver(rt, base(rt)?, 1)?; // to supply
    weight(rt, s, 0, 1)?;
    s = bound(rt, s)?;
    s = ask(rt, s, 2, 1)?; // supply waiting
    s = deliver(rt, s, 1)?; // supply
    ex_weight(rt, s, 2, 1)?; // supplied
    s = ask(rt, s, 2, 1)?; // supplied ask
    bound(rt, s)?;
    Ok(())
}

fn deliver_ask_less(rt: &impl Print) -> io::Result<()> {
    let mut s = deliver(rt, heavy_val(rt, 1047553, 1047353)?, 1)?; // 1023 left
    weight(rt, s, 0, 1)?;
    s = deliver(rt, s, 1)?; // supply 1023
    ex_weight(rt, s, 2, 1) // supplied 1023
}

fn deliver_ask_none(rt: &impl Print) -> io::Result<()> {
    let mut s = deliver(rt, heavy_val(rt, 1048576, 1048376)?, 1)?; // none left
    weight(rt, s, 0, 1)?;
    s = ask(rt, s, 2, 1)?; // none waiting
    s = deliver(rt, s, 1)?; // supply none
    ex_weight(rt, s, 2, 1)?; // supplied none
    ask(rt, s, 2, 1)?; // supplied none ask
    Ok(())
}

// ---- bound

fn bound_of_each(rt: &impl Print) -> io::Result<()> {
    let mut s = export(rt, base(rt)?, 0, 3, 1)?; // reference
    s = bound(rt, s)?; // with reference
    s = drop(rt, s, 3, 1)?; // release
    s = bound(rt, s)?; // with release
    s = deliver(rt, s, 1)?; // supply
    s = bound(rt, s)?; // with supply
    s = set(rt, s, 0, 0, 1)?;
    s = deliver(rt, s, 0)?; // answer
    bound(rt, s)?; // with answer
    Ok(())
}

// ---- step

fn steps_at_cells(rt: &impl Print) -> io::Result<()> {
    let mut s = step(rt, base(rt)?, Call::New { w: 0, caller: 0 })?;
    s = step(rt, s, Call::Set { w: 0, c: 5, n: 33 })?;
    s = step(rt, s, Call::ReadCell { w: 0, c: 5 })?;
    s = step(rt, s, Call::Bind { w: 1, c: 4, x: 2 })?;
    s = step(rt, s, Call::Drop { w: 1, c: 4 })?;
    step(rt, s, Call::AskWeight { w: 1, c: 2 })?;
    Ok(())
}

fn steps_at_messages(rt: &impl Print) -> io::Result<()> {
    let mut s = step(rt, base(rt)?, Call::Export { w: 0, c: 0, to: 1 })?;
    s = step(rt, s, Call::Indirect { w: 1, c: 0, to: 2 })?;
    s = step(rt, s, Call::Transfer { w: 3, c: 1, to: 0 })?;
    s = step(rt, s, Call::Deliver { slot: 3 })?;
    s = step(rt, s, Call::Bound)?;
    s = step(rt, s, Call::Start { p: 1 })?;
    step(rt, s, Call::Bound)?;
    Ok(())
}

fn main(rt: HostRuntime) -> io::Result<()> {
    starts_refused(&rt)?;
    starts(&rt)?;
    not_sound_cells(&rt)?;
    not_sound_messages(&rt)?;
    not_sound_first(&rt)?;
    new_cells(&rt)?;
    new_room(&rt)?;
    new_booked(&rt)?;
    set_refused(&rt)?;
    set_kinds(&rt)?;
    set_exported(&rt)?;
    bind_cells(&rt)?;
    bind_kinds(&rt)?;
    bind_unsafe(&rt)?;
    bind_safe(&rt)?;
    bind_known(&rt)?;
    bind_own_taint(&rt)?;
    export_workers(&rt)?;
    export_cells(&rt)?;
    export_ceiling(&rt)?;
    export_entries(&rt)?;
    export_room(&rt)?;
    export_booked(&rt)?;
    export_location(&rt)?;
    export_reference(&rt)?;
    export_ref(&rt)?;
    indirect_workers(&rt)?;
    indirect_cells(&rt)?;
    indirect_limits(&rt)?;
    indirect_room(&rt)?;
    indirect_safe(&rt)?;
    indirect_ref(&rt)?;
    indirect_unsafe(&rt)?;
    indirect_above(&rt)?;
    transfer_workers(&rt)?;
    transfer_cells(&rt)?;
    transfer_busy(&rt)?;
    transfer_room(&rt)?;
    transfer_joins(&rt)?;
    transfer_known(&rt)?;
    transfer_home(&rt)?;
    drop_refused(&rt)?;
    drop_exported(&rt)?;
    drop_busy(&rt)?;
    drop_kinds(&rt)?;
    drop_last(&rt)?;
    read_refused(&rt)?;
    read_answers(&rt)?;
    read_sent(&rt)?;
    ask_refused(&rt)?;
    ask_answers(&rt)?;
    no_slot_to_send(&rt)?;
    no_slot(&rt)?;
    full_slots_read(&rt)?;
    full_slots_change(&rt)?;
    order_full(&rt)?;
    order_slots(&rt)?;
    order_entries(&rt)?;
    deliver_refused(&rt)?;
    deliver_at_known(&rt)?;
    deliver_on(&rt)?;
    deliver_at_ref(&rt)?;
    deliver_at_known_ref(&rt)?;
    deliver_ask(&rt)?;
    deliver_ask_less(&rt)?;
    deliver_ask_none(&rt)?;
    bound_of_each(&rt)?;
    steps_at_cells(&rt)?;
    steps_at_messages(&rt)
}
