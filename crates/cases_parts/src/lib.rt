// The parts of the hand-made states that the cases are tried on, each by its fields.
#![tactic(auto)]

ghost use Rattle.std.specs.Prelude.{true, false, ◌≡◌};
ghost use Rattle.tables.specs.declared.Kind.TheVariants.{Ex};
ghost use Rattle.tables.specs.Parts.{live};
ghost use Rattle.tables.specs.declared.Message.TheVariants.{Reference, Release, Read, Answer, Ask, Supply};
ghost use Rattle.tables.specs.declared.Status.TheVariants.{Idle};

use tables::{Holding, Kind, Live, Message, Status};

// ---- cells

pub fn ex(owner: u8, entry: u8, weight: u32, status: Status, asking: bool) -> Kind
    ensures { result ≡ Ex owner entry weight status asking }
{
    Kind::Ex {
        owner,
        entry,
        weight,
        status,
        asking,
    }
}

// An EX that neither reads nor asks, and does not know its value.
pub fn idle(owner: u8, entry: u8, weight: u32) -> Kind
    ensures { result ≡ Ex owner entry weight Idle false }
{
    ex(owner, entry, weight, Status::Idle, false)
}

// ---- entries, tainted or not: two names, since the hand-made states are read by them

pub fn live(cell: u8, weight: u32) -> Holding
    ensures { result ≡ live cell weight false }
{
    Some(Live {
        cell,
        weight,
        tainted: false,
    })
}

pub fn tainted(cell: u8, weight: u32) -> Holding
    ensures { result ≡ live cell weight true }
{
    Some(Live {
        cell,
        weight,
        tainted: true,
    })
}

// ---- messages

pub fn reference(to: u8, owner: u8, entry: u8, weight: u32) -> Message
    ensures { result ≡ Reference to owner entry weight }
{
    Message::Reference {
        to,
        owner,
        entry,
        weight,
    }
}

pub fn release(owner: u8, entry: u8, weight: u32) -> Message
    ensures { result ≡ Release owner entry weight }
{
    Message::Release {
        owner,
        entry,
        weight,
    }
}

pub fn read(reader: u8, cell: u8, owner: u8, entry: u8) -> Message
    ensures { result ≡ Read reader cell owner entry }
{
    Message::Read {
        reader,
        cell,
        owner,
        entry,
    }
}

pub fn answer(reader: u8, cell: u8, n: u32) -> Message
    ensures { result ≡ Answer reader cell n }
{
    Message::Answer { reader, cell, n }
}

pub fn ask(asker: u8, cell: u8, owner: u8, entry: u8) -> Message
    ensures { result ≡ Ask asker cell owner entry }
{
    Message::Ask {
        asker,
        cell,
        owner,
        entry,
    }
}

pub fn supply(asker: u8, cell: u8, weight: u32) -> Message
    ensures { result ≡ Supply asker cell weight }
{
    Message::Supply {
        asker,
        cell,
        weight,
    }
}
