// The sizes and weights of document 01, the highest caller of W-201, and the types of their forms: the state, a call, its answer.
#![tactic(auto)]

// How many workers at most, cells and entries a worker, and message slots.
pub const WORKERS: u8 = 8;

pub const CELLS: u8 = 32;

pub const ENTRIES: u8 = 16;

pub const SLOTS: u8 = 64;

// The same to reckon places with: cells and entries of one worker, and those of all.
pub const CELL_ROW: usize = CELLS as usize;

pub const ENTRY_ROW: usize = ENTRIES as usize;

pub const ALL_CELLS: usize = WORKERS as usize * CELL_ROW;

pub const ALL_ENTRIES: usize = WORKERS as usize * ENTRY_ROW;

pub const ALL_SLOTS: usize = SLOTS as usize;

// The weight of a Reference by location, and the most that a Supply brings; and the ceiling of an entry's weight.
pub const FIRST_WEIGHT: u32 = 1024;

pub const CEILING: u32 = 1048576;

// The highest caller.
pub const LAST_CALLER: u32 = 255;

// An EX is idle, reading, or known with its value.
#[derive(Clone, Copy)]
pub enum Status {
    Idle,
    Reading,
    Known(u32),
}

// What a cell holds. A VAR and a VAL carry the caller who pays for their time; a REF names a cell of the same worker, an EX an entry of its
// owner's.
#[derive(Clone, Copy)]
pub enum Kind {
    Free,
    Var {
        caller: u8,
    },
    Val {
        n: u32,
        caller: u8,
    },
    Ref(u8),
    Ex {
        owner: u8,
        entry: u8,
        weight: u32,
        status: Status,
        asking: bool,
    },
}

#[derive(Clone, Copy)]
pub struct Cell {
    pub kind: Kind,
}

// A live export entry: the cell that it names, its weight, and whether it is tainted.
#[derive(Clone, Copy, PartialEq, Eq)]
pub struct Live {
    pub cell: u8,
    pub weight: u32,
    pub tainted: bool,
}

// What an export entry holds: it is live, or free.
pub type Holding = Option<Live>;

// A struct, as a cell is by document 01's form: the definitions say `holding`, `kind` and `message`.
#[derive(Clone, Copy)]
pub struct Entry {
    pub holding: Holding,
}

// What a message slot holds.
#[derive(Clone, Copy)]
pub enum Message {
    Empty,
    Reference {
        to: u8,
        owner: u8,
        entry: u8,
        weight: u32,
    },
    Release {
        owner: u8,
        entry: u8,
        weight: u32,
    },
    Read {
        reader: u8,
        cell: u8,
        owner: u8,
        entry: u8,
    },
    Answer {
        reader: u8,
        cell: u8,
        n: u32,
    },
    Ask {
        asker: u8,
        cell: u8,
        owner: u8,
        entry: u8,
    },
    Supply {
        asker: u8,
        cell: u8,
        weight: u32,
    },
}

#[derive(Clone, Copy)]
pub struct Slot {
    pub message: Message,
}

pub type CellTable = [Cell; ALL_CELLS];

pub type EntryTable = [Entry; ALL_ENTRIES];

pub type SlotTable = [Slot; ALL_SLOTS];

// P workers; cell c of worker w stands at w * CELL_ROW + c, entry e at w * ENTRY_ROW + e. One struct holding arrays, by document 01's form.
#[derive(Clone, Copy)]
pub struct State {
    pub p: u8,
    pub cells: CellTable,
    pub entries: EntryTable,
    pub slots: SlotTable,
}

// What an EX or a message names: an entry of an owner's.
#[derive(Clone, Copy, PartialEq, Eq)]
pub struct EntryName {
    pub owner: u8,
    pub entry: u8,
}

// The calls, with their arguments. An enum and no closure: a call is what a line of text says.
#[derive(Clone, Copy)]
pub enum Call {
    Start { p: u8 },
    New { w: u8, caller: u32 },
    Set { w: u8, c: u8, n: u32 },
    Bind { w: u8, c: u8, x: u8 },
    Export { w: u8, c: u8, to: u8 },
    Indirect { w: u8, c: u8, to: u8 },
    Transfer { w: u8, c: u8, to: u8 },
    Drop { w: u8, c: u8 },
    ReadCell { w: u8, c: u8 },
    AskWeight { w: u8, c: u8 },
    Deliver { slot: u8 },
    Bound,
}

// Why a call or a report is refused, each with its refusal number.
#[derive(Clone, Copy, PartialEq, Eq)]
pub enum Refusal {
    WorkerCount = 1,
    NotSound = 2,
    NoWorker = 3,
    ToItself = 4,
    NoCell = 5,
    WrongKind = 6,
    Busy = 7,
    Unsafe = 8,
    LastWeight = 9,
    OverCeiling = 10,
    NoEntry = 11,
    NoRoom = 12,
    NoSlot = 13,
    NoMessage = 14,
    NotReady = 15,
    NoCaller = 16,
    TooManyCharges = 17,
}

// A call's answer: done with a value, sent with its slot, or without a value. Refusals are among them and no Err, since by document 01's form one
// definition gives code and value of each case.
#[derive(Clone, Copy)]
pub enum Outcome {
    Done(u32),
    Sent(u8),
    Waiting,
    Unbound,
    Refused(Refusal),
}

// What a call changes: nothing, a cell, a slot, or a slot and a cell or an entry.
#[derive(Clone, Copy)]
pub enum Change {
    Nothing,
    OfCell {
        w: u8,
        c: u8,
        kind: Kind,
    },
    OfSlot {
        slot: u8,
        message: Message,
    },
    OfCellAndSlot {
        w: u8,
        c: u8,
        kind: Kind,
        slot: u8,
        message: Message,
    },
    OfEntryAndSlot {
        w: u8,
        e: u8,
        holding: Holding,
        slot: u8,
        message: Message,
    },
}

// What a call does: its answer, and what it changes.
#[derive(Clone, Copy)]
pub struct Effect {
    pub outcome: Outcome,
    pub change: Change,
}

// An entry to use: its number, and what it holds.
#[derive(Clone, Copy)]
pub struct Used {
    pub number: u8,
    pub holding: Holding,
}

// The room for a Reference at a worker: its free cells, the References booked there, and the lowest empty slot.
#[derive(Clone, Copy)]
pub struct Room {
    pub free: u8,
    pub booked: u8,
    pub slot: u8,
}

#[derive(Clone, Copy)]
pub struct Reply {
    pub outcome: Outcome,
    pub state: State,
}
