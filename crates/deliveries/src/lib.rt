// The call deliver, equal to its rule for all states and all numbers. It is tried as the calls of `quiet` are.
#![tactic(auto)]

ghost use Rattle.std.specs.Prelude.{◌≤◌, ◌≡◌, true};
ghost use Rattle.tables.specs.Machine.{eight, tables};
ghost use Rattle.tables.specs.Parts.{message_weight};
ghost use Rattle.rules.specs.Answers.{made, reply};
ghost use Rattle.states.specs.Sound.{sound};
ghost use Rattle.rules.specs.Refusals.{read_end, ready_at, deliver_lines};
ghost use Rattle.rules.specs.Deliver.{deliver_message, deliver};
ghost use Rattle.quiet.specs.Verdicts.{first_hit, settled};

mod messages;

use messages::{
    deliver_answer, deliver_ask, deliver_read, deliver_reference, deliver_release, deliver_supply,
    read_end,
};
use quiet::refusals::state_refusal;
use quiet::verdict::{refuse_if, settled};
use tables::{Effect, Kind, Message, Outcome, Refusal, Reply, State};

// A Read is ready unless the end that it comes to is a VAR; all other messages are ready.
fn is_ready(m: Message, end: Kind) -> bool
    ensures { result ≡ ready_at m end }
{
    match m {
        Message::Read { .. } => !parts::is_var(end),
        _ => true,
    }
}

// The message m in the slot k, which comes to this end if it is a Read.
#[tactic(auto, unfolding(rules::specs::Deliver::deliver_message, rules::specs::Deliver::deliver_read))]
fn deliver_message(s: &State, k: u8, m: Message, end: Kind) -> Effect
    ensures { sound eight (tables s.now) ≡ true → message_weight m ≤ 1048576 → end ≡ read_end eight (tables s.now) m → result ≡ deliver_message eight (tables s.now) k m }
{
    match m {
        Message::Empty => changes::unchanged(Outcome::Done(0)),
        Message::Reference {
            to,
            owner,
            entry,
            weight,
        } => deliver_reference(s, k, to, owner, entry, weight),
        Message::Release {
            owner,
            entry,
            weight,
        } => deliver_release(s, k, owner, entry, weight),
        Message::Read {
            reader,
            cell,
            owner,
            entry,
        } => deliver_read(k, reader, cell, owner, entry, end),
        Message::Answer { reader, cell, n } => deliver_answer(s, k, reader, cell, n),
        Message::Ask {
            asker,
            cell,
            owner,
            entry,
        } => deliver_ask(s, k, asker, cell, owner, entry),
        Message::Supply {
            asker,
            cell,
            weight,
        } => deliver_supply(s, k, asker, cell, weight),
    }
}

// The message in the slot is delivered.
pub fn deliver(s: State, slot: u8) -> Reply
    ensures { result ≡ reply (made eight (tables s) (deliver eight (tables s) slot)) }
{
    let tried = try_deliver(&s, slot);
    changes::replied(s, settled(tried))
}

fn try_deliver(s: &State, slot: u8) -> Result<Effect, Refusal>
    ensures { settled result ≡ deliver eight (tables s.now) slot }
{
    let m = lookups::message_at(&s.slots, slot);
    let end = read_end(s, m);
    delivery_refusals(sound::is_sound(s), m, is_ready(m, end))?;
    Ok(deliver_message(s, slot, m, end))
}

// 2, 14 and 15.
#[tactic(auto, unfolding(quiet::specs::Verdicts::first_hit))]
fn delivery_refusals(sound: bool, m: Message, ready: bool) -> Result<(), Refusal>
    ensures { result ≡ first_hit (deliver_lines sound m ready) }
{
    state_refusal(sound)?;
    refuse_if(parts::is_empty(m), Refusal::NoMessage)?;
    refuse_if(!ready, Refusal::NotReady)
}
