// What a call that sends a message tests of the table of refusal numbers, in its order, on what it has looked up; and the tests behind it.
ghost use Rattle.std.specs.Prelude.{◌≡◌, cond, [], ◌∷◌};
ghost use Rattle.tables.specs.Machine.{eight};
ghost use Rattle.tables.specs.Parts.{is_ex};
ghost use Rattle.rules.specs.Refusals.{read_sends, no_slot_if};
ghost use Rattle.rules.specs.Refusals.{send_lines, room_lines, by_reference_lines, by_location_lines};
ghost use Rattle.quiet.specs.Verdicts.{first_hit};

use quiet::refusals::worker_refusals;
use quiet::verdict::refuse_if;
use tables::{CEILING, ENTRIES, FIRST_WEIGHT, Kind, Refusal, Room, SLOTS, Status, Used};

// ---- lists of refusals

// What export, indirect and transfer test first.
#[tactic(auto, unfolding(quiet::specs::Verdicts::first_hit))]
pub fn send_refusals(sound: bool, p: u8, w: u8, to: u8, k: Kind) -> Result<(), Refusal>
    ensures { result ≡ first_hit (send_lines sound p w to k) }
{
    worker_refusals(sound, p, w)?;
    refuse_if(p <= to, Refusal::NoWorker)?;
    refuse_if(to == w, Refusal::ToItself)?;
    refuse_if(parts::is_free(k), Refusal::NoCell)
}

// 13, where a message is sent and this is the lowest empty slot.
#[tactic(auto, unfolding(quiet::specs::Verdicts::first_hit))]
pub fn slot_refusal(sends: bool, slot: u8) -> Result<(), Refusal>
    ensures { result ≡ first_hit (no_slot_if eight sends slot ∷ []) }
{
    refuse_if(sends && SLOTS <= slot, Refusal::NoSlot)
}

// 12 at the receiver, and 13.
#[tactic(auto, unfolding(quiet::specs::Verdicts::first_hit))]
pub fn room_refusals(room: Room) -> Result<(), Refusal>
    ensures { result ≡ first_hit (room_lines eight room) }
{
    refuse_if(room.free <= room.booked, Refusal::NoRoom)?;
    slot_refusal(true, room.slot)
}

// 9, 12 and 13: the EX ex is exported by reference.
#[tactic(auto, unfolding(quiet::specs::Verdicts::first_hit))]
fn by_reference_refusals(ex: Kind, room: Room) -> Result<(), Refusal>
    ensures { result ≡ first_hit (by_reference_lines eight ex room) }
{
    refuse_if(parts::ex_weight(ex) <= 1, Refusal::LastWeight)?;
    room_refusals(room)
}

// 10 to 13: a cell is exported by location, with the entry u. One above 1,048,576 - 1,024 would pass the ceiling.
#[tactic(auto, unfolding(quiet::specs::Verdicts::first_hit))]
pub fn by_location_refusals(u: Used, room: Room) -> Result<(), Refusal>
    ensures { result ≡ first_hit (by_location_lines eight u room) }
{
    let over = CEILING - FIRST_WEIGHT < parts::entry_weight(u.holding);
    refuse_if(over, Refusal::OverCeiling)?;
    refuse_if(ENTRIES <= u.number, Refusal::NoEntry)?;
    room_refusals(room)
}

// The end k of an exported cell: by reference where it is an EX, and else by location.
pub fn end_refusals(k: Kind, u: Used, room: Room) -> Result<(), Refusal>
    ensures { result ≡ first_hit (cond (is_ex k) (by_reference_lines eight k room) (by_location_lines eight u room)) }
{
    if parts::is_ex(k) {
        by_reference_refusals(k, room)
    } else {
        by_location_refusals(u, room)
    }
}

// ---- the tests behind them

// A read that comes to this end sends a Read.
pub fn read_sends(k: Kind) -> bool
    ensures { result ≡ read_sends k }
{
    matches!(
        k,
        Kind::Ex {
            status: Status::Idle,
            ..
        }
    )
}
