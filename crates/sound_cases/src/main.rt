// Puts hand-made states to the soundness test and writes, for each, its name and the first broken point, 0 where the state is sound.
// Most are a small change of one busy state that is sound; the points before the one shown hold.
#![tactic(auto)]

use cases_parts::{answer, ask, ex, idle, live, read, reference, release, supply, tainted};
use changes::all_free;
use lookups::{put_cell, put_entry, put_message};
use std::io;
use tables::{Holding, Kind, Message, State, Status};

// ---- parts

fn reading(owner: u8, entry: u8, weight: u32, asking: bool) -> Kind {
    ex(owner, entry, weight, Status::Reading, asking)
}

fn asking(owner: u8, entry: u8, weight: u32) -> Kind {
    ex(owner, entry, weight, Status::Idle, true)
}

fn known_asking(owner: u8, entry: u8, weight: u32, n: u32) -> Kind {
    ex(owner, entry, weight, Status::Known(n), true)
}

// ---- states

// Four workers: each kind of cell, of several callers.
fn cells_of_0(p: u8) -> State {
    let mut s = all_free(p);
    s = put_cell(s, 0, 0, Kind::Var { caller: 255 });
    s = put_cell(s, 0, 1, Kind::Val { n: 7, caller: 17 });
    put_cell(s, 0, 2, idle(3, 0, 70))
}

fn cells_to_1(p: u8) -> State {
    let mut s = cells_of_0(p);
    s = put_cell(s, 1, 0, reading(0, 0, 100, false));
    s = put_cell(s, 1, 1, Kind::Ref(0));
    s = put_cell(s, 1, 2, known_asking(0, 1, 200, 7));
    s = put_cell(s, 1, 3, Kind::Var { caller: 17 });
    put_cell(s, 1, 4, idle(0, 2, 80))
}

fn cells_to_2(p: u8) -> State {
    let mut s = cells_to_1(p);
    s = put_cell(s, 2, 0, idle(1, 0, 300));
    s = put_cell(s, 2, 1, asking(0, 1, 50));
    put_cell(s, 2, 2, Kind::Val { n: 9, caller: 255 })
}

fn busy_cells(p: u8) -> State {
    let mut s = cells_to_2(p);
    s = put_cell(s, 3, 0, reading(2, 0, 400, false));
    s = put_cell(s, 3, 1, reading(0, 0, 60, true));
    put_cell(s, 3, 2, Kind::Var { caller: 0 })
}

// With their entries: a REF and an EX that is safe are exported by 1 and 2, an unsafe one by 0.
fn busy_entries(p: u8) -> State {
    let mut s = busy_cells(p);
    s = put_entry(s, 0, 0, live(0, 200));
    s = put_entry(s, 0, 1, live(1, 305));
    s = put_entry(s, 0, 2, tainted(2, 80));
    s = put_entry(s, 1, 0, live(1, 300));
    s = put_entry(s, 2, 0, live(0, 400));
    put_entry(s, 3, 0, live(2, 70))
}

// With each kind of message. The second Read, of cell 0 of worker 3, has come over two references: entry 0 of 2, of 1, of 0.
fn busy(p: u8) -> State {
    let mut s = busy_entries(p);
    s = put_message(s, 0, read(1, 0, 0, 0));
    s = put_message(s, 1, read(3, 0, 0, 0));
    s = put_message(s, 2, answer(3, 1, 5));
    s = put_message(s, 3, ask(1, 2, 0, 1));
    s = put_message(s, 4, supply(2, 1, 25));
    s = put_message(s, 5, supply(3, 1, 0));
    s = put_message(s, 6, reference(2, 0, 0, 40));
    put_message(s, 7, release(0, 1, 30))
}

// The busy state with one part changed.
fn with_cell(w: u8, c: u8, k: Kind) -> State {
    put_cell(busy(4), w, c, k)
}

fn with_entry(w: u8, e: u8, x: Holding) -> State {
    put_entry(busy(4), w, e, x)
}

fn with_message(slot: u8, m: Message) -> State {
    put_message(busy(4), slot, m)
}

// A new entry 9 of worker 0, of weight 10, held by cell 9 of worker 3.
fn with_new_entry(x: Holding) -> State {
    put_cell(with_entry(0, 9, x), 3, 9, idle(0, 9, 10))
}

// Cell 9 of worker 1 is k, and its new entry 1, of weight 10, which holds x, is held by cell 9 of worker 3.
fn with_exported(k: Kind, x: Holding) -> State {
    put_cell(put_entry(with_cell(1, 9, k), 1, 1, x), 3, 9, idle(1, 1, 10))
}

// Entry 3 of worker 0 leads to entry 1 of worker 1, and that one back.
fn with_loop() -> State {
    let mut s = busy(4);
    s = put_cell(s, 0, 3, idle(1, 1, 10));
    s = put_entry(s, 0, 3, tainted(3, 20));
    s = put_cell(s, 1, 5, idle(0, 3, 20));
    put_entry(s, 1, 1, tainted(5, 10))
}

// Worker 2, to which one Reference goes, has its cells below c taken.
fn with_cells_below(c: u8) -> State {
    let mut s = busy(4);
    for d in 3..c {
        s = put_cell(s, 2, d, Kind::Var { caller: 0 });
    }
    s
}

// ---- the cases

fn show(rt: &impl Print, name: &str, s: State) -> io::Result<()> {
    let n = sound::broken_place(&s);
    println!(rt; "{name} {n}")
}

fn sound_states(rt: &impl Print) -> io::Result<()> {
    show(rt, "closed", all_free(0))?;
    show(rt, "one-worker", all_free(1))?;
    show(rt, "busy", busy(4))?;
    show(rt, "eight-workers", busy(8))
}

fn sound_weights(rt: &impl Print) -> io::Result<()> {
    show(
        rt,
        "supply-of-0",
        put_entry(with_message(4, supply(2, 1, 0)), 0, 1, live(1, 280)),
    )?;
    show(
        rt,
        "weight-at-the-ceiling",
        put_entry(
            with_cell(3, 0, reading(2, 0, 1048576, false)),
            2,
            0,
            live(0, 1048576),
        ),
    )?;
    show(rt, "booked-equals-free", with_cells_below(31))
}

fn sound_references(rt: &impl Print) -> io::Result<()> {
    show(
        rt,
        "read-of-its-own-entry",
        with_message(1, read(3, 0, 2, 0)),
    )?;
    show(
        rt,
        "read-over-one-reference",
        with_message(1, read(3, 0, 1, 0)),
    )?;
    show(
        rt,
        "tainted-names-tainted",
        with_exported(Kind::Ref(4), tainted(9, 10)),
    )?;
    show(rt, "loop", with_loop())
}

fn workers_beyond_p(rt: &impl Print) -> io::Result<()> {
    show(rt, "p-9", busy(9))?;
    show(rt, "p-255", all_free(255))?;
    show(
        rt,
        "closed-with-a-cell",
        put_cell(all_free(0), 0, 0, Kind::Var { caller: 0 }),
    )?;
    show(
        rt,
        "cell-of-worker-p",
        with_cell(4, 0, Kind::Var { caller: 0 }),
    )?;
    show(
        rt,
        "cell-of-worker-7",
        with_cell(7, 31, Kind::Val { n: 0, caller: 0 }),
    )?;
    show(rt, "entry-of-worker-p", with_entry(4, 0, live(0, 1)))
}

fn owners_beyond_p(rt: &impl Print) -> io::Result<()> {
    show(rt, "ex-owner-p", with_cell(3, 9, idle(4, 0, 1)))?;
    show(rt, "ex-owner-255", with_cell(3, 9, idle(255, 0, 1)))?;
    show(
        rt,
        "reference-owner-p",
        with_message(8, reference(2, 4, 0, 1)),
    )?;
    show(rt, "release-owner-p", with_message(8, release(4, 0, 1)))?;
    show(rt, "read-owner-p", with_message(0, read(1, 0, 4, 0)))?;
    show(rt, "ask-owner-p", with_message(3, ask(1, 2, 4, 1)))
}

fn receivers_beyond_p(rt: &impl Print) -> io::Result<()> {
    show(rt, "reference-to-p", with_message(8, reference(4, 0, 0, 1)))?;
    show(rt, "read-reader-p", with_message(8, read(4, 0, 0, 0)))?;
    show(rt, "answer-reader-p", with_message(8, answer(4, 0, 0)))?;
    show(rt, "ask-asker-p", with_message(8, ask(4, 0, 0, 0)))?;
    show(rt, "supply-asker-p", with_message(8, supply(4, 0, 0)))
}

fn cells_beyond_31(rt: &impl Print) -> io::Result<()> {
    show(rt, "ref-cell-32", with_cell(1, 1, Kind::Ref(32)))?;
    show(rt, "entry-cell-32", with_new_entry(live(32, 10)))?;
    show(rt, "read-cell-32", with_message(8, read(1, 32, 0, 0)))?;
    show(rt, "answer-cell-32", with_message(8, answer(3, 32, 5)))?;
    show(rt, "ask-cell-32", with_message(8, ask(1, 32, 0, 1)))?;
    show(rt, "supply-cell-32", with_message(8, supply(2, 32, 0)))
}

fn entries_beyond_15(rt: &impl Print) -> io::Result<()> {
    show(rt, "ex-entry-16", with_cell(3, 9, idle(0, 16, 1)))?;
    show(
        rt,
        "reference-entry-16",
        with_message(8, reference(2, 0, 16, 1)),
    )?;
    show(rt, "release-entry-16", with_message(8, release(0, 16, 1)))?;
    show(rt, "read-entry-16", with_message(0, read(1, 0, 0, 16)))?;
    show(rt, "ask-entry-16", with_message(3, ask(1, 2, 0, 16)))
}

fn weights_out_of_range(rt: &impl Print) -> io::Result<()> {
    show(
        rt,
        "ex-over-the-ceiling",
        with_cell(3, 9, idle(0, 2, 1048577)),
    )?;
    show(
        rt,
        "entry-over-the-ceiling",
        with_entry(2, 0, live(0, 1048577)),
    )?;
    show(
        rt,
        "reference-over-the-ceiling",
        with_message(8, reference(2, 0, 0, 1048577)),
    )?;
    show(
        rt,
        "release-over-the-ceiling",
        with_message(8, release(0, 1, 1048577)),
    )?;
    show(
        rt,
        "supply-over-the-ceiling",
        with_message(4, supply(2, 1, 1048577)),
    )?;
    show(rt, "entry-of-weight-0", with_entry(0, 9, live(9, 0)))
}

fn refs_name(rt: &impl Print) -> io::Result<()> {
    show(rt, "ref-to-free", with_cell(3, 9, Kind::Ref(31)))?;
    show(rt, "ref-to-var", with_cell(1, 9, Kind::Ref(3)))?;
    show(rt, "ref-to-val", with_cell(2, 9, Kind::Ref(2)))?;
    show(rt, "ref-to-ref", with_cell(1, 9, Kind::Ref(1)))?;
    show(rt, "ref-to-itself", with_cell(1, 9, Kind::Ref(9)))
}

fn exes_name(rt: &impl Print) -> io::Result<()> {
    show(rt, "ex-of-a-free-entry", with_cell(3, 9, idle(0, 9, 1)))?;
    show(
        rt,
        "ex-of-its-own-worker",
        put_entry(with_cell(0, 9, idle(0, 0, 10)), 0, 0, live(0, 210)),
    )?;
    show(rt, "ex-of-weight-0", with_cell(3, 9, idle(0, 2, 0)))?;
    show(
        rt,
        "two-ex-of-one-entry",
        put_entry(with_cell(1, 9, idle(0, 0, 10)), 0, 0, live(0, 210)),
    )
}

fn entries_name(rt: &impl Print) -> io::Result<()> {
    show(rt, "entry-of-a-free-cell", with_new_entry(live(9, 10)))?;
    show(rt, "two-entries-of-one-cell", with_new_entry(live(0, 10)))?;
    show(
        rt,
        "untainted-owner-not-below",
        with_entry(0, 2, live(2, 80)),
    )?;
    show(
        rt,
        "untainted-names-tainted",
        with_exported(Kind::Var { caller: 0 }, live(4, 10)),
    )?;
    show(
        rt,
        "untainted-ref-to-unsafe",
        with_exported(Kind::Ref(4), live(9, 10)),
    )
}

fn reading_with_one(rt: &impl Print) -> io::Result<()> {
    show(rt, "reading-with-none", with_message(0, Message::Empty))?;
    show(
        rt,
        "reading-with-two-reads",
        with_message(8, read(1, 0, 0, 0)),
    )?;
    show(
        rt,
        "reading-with-read-and-answer",
        with_message(8, answer(1, 0, 5)),
    )
}

fn reads_with_a_reader(rt: &impl Print) -> io::Result<()> {
    show(rt, "read-for-an-idle-ex", with_message(8, read(2, 0, 1, 0)))?;
    show(rt, "read-for-a-known-ex", with_message(8, read(1, 2, 0, 1)))?;
    show(rt, "read-for-a-var", with_message(8, read(1, 3, 0, 0)))?;
    show(
        rt,
        "read-for-a-free-cell",
        with_message(8, read(1, 31, 0, 0)),
    )?;
    show(
        rt,
        "answer-for-an-idle-ex",
        with_message(8, answer(2, 0, 5)),
    )
}

fn asks_and_supplies(rt: &impl Print) -> io::Result<()> {
    show(rt, "asking-with-none", with_message(3, Message::Empty))?;
    show(rt, "asking-with-two-asks", with_message(8, ask(1, 2, 0, 1)))?;
    show(
        rt,
        "asking-with-ask-and-supply",
        with_message(8, supply(1, 2, 0)),
    )?;
    show(
        rt,
        "ask-for-one-not-asking",
        with_message(8, ask(2, 0, 1, 0)),
    )?;
    show(
        rt,
        "supply-for-one-not-asking",
        with_message(8, supply(2, 0, 0)),
    )
}

fn messages_name(rt: &impl Print) -> io::Result<()> {
    show(
        rt,
        "reference-of-a-free-entry",
        with_message(8, reference(2, 0, 9, 5)),
    )?;
    show(
        rt,
        "release-of-a-free-entry",
        with_message(8, release(0, 9, 5)),
    )?;
    show(
        rt,
        "read-of-a-free-entry",
        with_message(0, read(1, 0, 0, 9)),
    )?;
    show(rt, "ask-of-a-free-entry", with_message(3, ask(1, 2, 0, 9)))?;
    show(
        rt,
        "reference-of-weight-0",
        with_message(8, reference(2, 0, 0, 0)),
    )?;
    show(rt, "release-of-weight-0", with_message(8, release(0, 1, 0)))
}

fn reads_reach(rt: &impl Print) -> io::Result<()> {
    show(rt, "ask-of-another-entry", with_message(3, ask(1, 2, 0, 0)))?;
    show(rt, "read-not-reached", with_message(0, read(1, 0, 0, 1)))?;
    show(rt, "read-the-wrong-way", with_message(0, read(1, 0, 1, 0)))?;
    let circling = put_cell(with_loop(), 1, 5, reading(0, 3, 20, false));
    show(
        rt,
        "read-out-of-a-loop",
        put_message(circling, 8, read(1, 5, 0, 0)),
    )
}

fn weights_summed(rt: &impl Print) -> io::Result<()> {
    show(rt, "entry-one-more", with_entry(0, 0, live(0, 201)))?;
    show(rt, "entry-one-less", with_entry(0, 0, live(0, 199)))?;
    show(rt, "ex-not-counted", with_entry(0, 0, live(0, 140)))?;
    show(rt, "reference-not-counted", with_entry(0, 0, live(0, 160)))
}

fn weights_in_transit(rt: &impl Print) -> io::Result<()> {
    show(rt, "release-not-counted", with_entry(0, 1, live(1, 275)))?;
    show(rt, "supply-not-counted", with_entry(0, 1, live(1, 280)))?;
    show(
        rt,
        "supply-counted-elsewhere",
        put_entry(with_entry(0, 1, live(1, 280)), 0, 0, live(0, 225)),
    )
}

fn room(rt: &impl Print) -> io::Result<()> {
    show(rt, "booked-more-than-free", with_cells_below(32))
}

fn main(rt: HostRuntime) -> io::Result<()> {
    sound_states(&rt)?;
    sound_weights(&rt)?;
    sound_references(&rt)?;
    workers_beyond_p(&rt)?;
    owners_beyond_p(&rt)?;
    receivers_beyond_p(&rt)?;
    cells_beyond_31(&rt)?;
    entries_beyond_15(&rt)?;
    weights_out_of_range(&rt)?;
    refs_name(&rt)?;
    exes_name(&rt)?;
    entries_name(&rt)?;
    reading_with_one(&rt)?;
    reads_with_a_reader(&rt)?;
    asks_and_supplies(&rt)?;
    messages_name(&rt)?;
    reads_reach(&rt)?;
    weights_summed(&rt)?;
    weights_in_transit(&rt)?;
    room(&rt)
}
