// The calls that send a message: export, indirect, transfer, drop, read and ask, each equal to its rule for all states and all numbers.
// They are alike but for what tries them, as in `quiet`.
#![tactic(auto)]

ghost use Rattle.std.specs.Prelude.{◌≡◌};
ghost use Rattle.tables.specs.Machine.{eight, tables};
ghost use Rattle.rules.specs.Answers.{made, reply};
ghost use Rattle.rules.specs.Calls.{export, indirect, transfer, drop, read, ask};
ghost use Rattle.quiet.specs.Verdicts.{settled};

mod refusals;

use quiet::refusals::cell_refusals;
use quiet::verdict::{refuse_if, settled};
use refusals::{
    by_location_refusals, end_refusals, read_sends, room_refusals, send_refusals, slot_refusal,
};
use tables::{Effect, Refusal, Reply, State};

// The end of c is sent to worker `to`: by location, or an EX by reference.
pub fn export(s: State, w: u8, c: u8, to: u8) -> Reply
    ensures { result ≡ reply (made eight (tables s) (export eight (tables s) w c to)) }
{
    let tried = try_export(&s, w, c, to);
    changes::replied(s, settled(tried))
}

#[tactic(auto, unfolding(quiet::specs::Verdicts::settled, quiet::specs::Verdicts::first_hit, rules::specs::Calls::export, rules::specs::Answers::checked))]
fn try_export(s: &State, w: u8, c: u8, to: u8) -> Result<Effect, Refusal>
    ensures { settled result ≡ export eight (tables s.now) w c to }
{
    let look = lookups::see(&s.cells, w, c);
    send_refusals(sound::is_sound(s), s.p, w, to, look.kind)?;
    let u = changes::use_entry(&s.entries, w, look.end);
    let room = searches::room_at(&s.cells, &s.slots, to);
    end_refusals(look.ending, u, room)?;
    Ok(changes::export_end(w, look.end, to, look.ending, u, room.slot))
}

// The EX at the end of c is sent by location.
pub fn indirect(s: State, w: u8, c: u8, to: u8) -> Reply
    ensures { result ≡ reply (made eight (tables s) (indirect eight (tables s) w c to)) }
{
    let tried = try_indirect(&s, w, c, to);
    changes::replied(s, settled(tried))
}

#[tactic(auto, using(changes::specs::BelowCeiling::entry_weight_lem), unfolding(quiet::specs::Verdicts::settled, quiet::specs::Verdicts::first_hit, rules::specs::Calls::indirect, rules::specs::Answers::checked))]
fn try_indirect(s: &State, w: u8, c: u8, to: u8) -> Result<Effect, Refusal>
    ensures { settled result ≡ indirect eight (tables s.now) w c to }
{
    let look = lookups::see(&s.cells, w, c);
    send_refusals(sound::is_sound(s), s.p, w, to, look.kind)?;
    refuse_if(!parts::is_ex(look.ending), Refusal::WrongKind)?;
    let u = changes::use_entry(&s.entries, w, look.end);
    let room = searches::room_at(&s.cells, &s.slots, to);
    by_location_refusals(u, room)?;
    let taint = !lookups::is_safe(&s.entries, w, look.ending);
    Ok(changes::by_location(w, look.end, to, taint, u, room.slot))
}

// The EX c is freed, and its whole weight sent.
pub fn transfer(s: State, w: u8, c: u8, to: u8) -> Reply
    ensures { result ≡ reply (made eight (tables s) (transfer eight (tables s) w c to)) }
{
    let tried = try_transfer(&s, w, c, to);
    changes::replied(s, settled(tried))
}

#[tactic(auto, unfolding(quiet::specs::Verdicts::settled, quiet::specs::Verdicts::first_hit, rules::specs::Calls::transfer, tables::specs::Look::busy, rules::specs::Answers::checked))]
fn try_transfer(s: &State, w: u8, c: u8, to: u8) -> Result<Effect, Refusal>
    ensures { settled result ≡ transfer eight (tables s.now) w c to }
{
    let k = lookups::cell_at(&s.cells, w, c);
    send_refusals(sound::is_sound(s), s.p, w, to, k)?;
    refuse_if(!parts::is_ex(k), Refusal::WrongKind)?;
    let busy = searches::is_busy(&s.cells, &s.entries, w, c, k);
    refuse_if(busy, Refusal::Busy)?;
    let room = searches::room_at(&s.cells, &s.slots, to);
    room_refusals(room)?;
    Ok(changes::transferred(w, c, to, k, room.slot))
}

// The cell c is freed; an EX sends its whole weight back.
pub fn drop(s: State, w: u8, c: u8) -> Reply
    ensures { result ≡ reply (made eight (tables s) (drop eight (tables s) w c)) }
{
    let tried = try_drop(&s, w, c);
    changes::replied(s, settled(tried))
}

#[tactic(auto, unfolding(quiet::specs::Verdicts::settled, quiet::specs::Verdicts::first_hit, rules::specs::Calls::drop, tables::specs::Look::busy, rules::specs::Answers::checked))]
fn try_drop(s: &State, w: u8, c: u8) -> Result<Effect, Refusal>
    ensures { settled result ≡ drop eight (tables s.now) w c }
{
    let k = lookups::cell_at(&s.cells, w, c);
    cell_refusals(sound::is_sound(s), s.p, w, k)?;
    let busy = searches::is_busy(&s.cells, &s.entries, w, c, k);
    refuse_if(busy, Refusal::Busy)?;
    let slot = searches::lowest_empty_slot(&s.slots);
    slot_refusal(parts::is_ex(k), slot)?;
    Ok(changes::dropped(w, c, k, slot))
}

// The value at the end of c, or a Read sent for it.
pub fn read(s: State, w: u8, c: u8) -> Reply
    ensures { result ≡ reply (made eight (tables s) (read eight (tables s) w c)) }
{
    let tried = try_read(&s, w, c);
    changes::replied(s, settled(tried))
}

#[tactic(auto, unfolding(quiet::specs::Verdicts::settled, quiet::specs::Verdicts::first_hit, rules::specs::Calls::read, rules::specs::Answers::checked))]
fn try_read(s: &State, w: u8, c: u8) -> Result<Effect, Refusal>
    ensures { settled result ≡ read eight (tables s.now) w c }
{
    let look = lookups::see(&s.cells, w, c);
    cell_refusals(sound::is_sound(s), s.p, w, look.kind)?;
    let slot = searches::lowest_empty_slot(&s.slots);
    slot_refusal(read_sends(look.ending), slot)?;
    Ok(changes::read_at(w, look.end, look.ending, slot))
}

// An Ask for more weight is sent from the EX at the end of c.
pub fn ask(s: State, w: u8, c: u8) -> Reply
    ensures { result ≡ reply (made eight (tables s) (ask eight (tables s) w c)) }
{
    let tried = try_ask(&s, w, c);
    changes::replied(s, settled(tried))
}

#[tactic(auto, unfolding(quiet::specs::Verdicts::settled, quiet::specs::Verdicts::first_hit, rules::specs::Calls::ask, rules::specs::Answers::checked))]
fn try_ask(s: &State, w: u8, c: u8) -> Result<Effect, Refusal>
    ensures { settled result ≡ ask eight (tables s.now) w c }
{
    let look = lookups::see(&s.cells, w, c);
    cell_refusals(sound::is_sound(s), s.p, w, look.kind)?;
    refuse_if(!parts::is_ex(look.ending), Refusal::WrongKind)?;
    let slot = searches::lowest_empty_slot(&s.slots);
    slot_refusal(!parts::is_asking(look.ending), slot)?;
    Ok(changes::ask_at(w, look.end, look.ending, slot))
}
