// Tables of rows, one row for each worker, whatever stands in them: what stands at a number, a store there, the lowest that is sought and how
// many are counted. Each function is total: past a row's end and past the last row a free part is read, and a store there changes nothing.
#![tactic(auto)]

ghost use Rattle.std.specs.Prelude.{◌≡◌, ℕ, ◌+◌, ◌*◌, Bool, None};
ghost use Rattle.numbers.specs.Below.{lowest, count_below};
ghost use Rattle.tables.specs.declared.Kind.TheVariants.{Free};
ghost use Rattle.tables.specs.declared.Message.TheVariants.{Empty};
ghost use Rattle.rows.specs.Rows.{row_at, row_put};

use tables::{CELLS, Cell, ENTRIES, Entry, Holding, Kind, Message, SLOTS, Slot};

// What stands in a table of rows: how many a row has, and one that is free.
pub trait Part: Copy {
    const WIDTH: u8;

    ghost WIDTH: { ℕ };

    ghost free: { Self };

    fn free() -> Self
        ensures { result ≡ free };
}

impl Part for Cell {
    const WIDTH: u8 = CELLS;

    ghost WIDTH = { 32 };

    ghost free = { record { kind = Free } };

    fn free() -> Cell {
        Cell { kind: Kind::Free }
    }
}

impl Part for Entry {
    const WIDTH: u8 = ENTRIES;

    ghost WIDTH = { 16 };

    ghost free = { record { holding = None } };

    fn free() -> Entry {
        Entry { holding: None }
    }
}

// The slots are one row.
impl Part for Slot {
    const WIDTH: u8 = SLOTS;

    ghost WIDTH = { 64 };

    ghost free = { record { message = Empty } };

    fn free() -> Slot {
        Slot {
            message: Message::Empty,
        }
    }
}

// The place of the number i of the row w.
fn place<T: Part>(w: u8, i: u8) -> usize
    ensures { result ≡ w * T.WIDTH + i }
{
    w as usize * T::WIDTH as usize + i as usize
}

// What stands at the number i of the row w.
pub fn at<T: Part>(table: &[T], w: u8, i: u8) -> T
    ensures { result ≡ row_at T.WIDTH T.free table.now w i }
{
    if T::WIDTH <= i {
        return T::free();
    }
    table.get(place::<T>(w, i)).copied().unwrap_or(T::free())
}

// Puts x there.
pub fn put<T: Part>(table: &mut [T], w: u8, i: u8, x: T)
    ensures { table.new ≡ row_put T.WIDTH table.old w i x }
{
    let at = place::<T>(w, i);
    if i < T::WIDTH && at < table.len() {
        table[at] = x;
    }
}

// The lowest of the row w that is sought, the width where there is none. By number, as the count below: past the last row there is no slice to walk.
pub fn lowest<T: Part, F: Fn(T) -> bool>(table: &[T], w: u8, sought: F) -> u8
    requires { F.IsAlwaysCallable sought }
    ensures { (q : T → Bool) → ((x : T) (b : Bool) → F.post sought x b → b ≡ q x) → result ≡ lowest T.WIDTH (λ i. q (row_at T.WIDTH T.free table.now w i)) }
{
    for i in 0..T::WIDTH {
        if sought(at(table, w, i)) {
            return i;
        }
    }
    T::WIDTH
}

// How many of the row w are counted.
pub fn count<T: Part, F: Fn(T) -> bool>(table: &[T], w: u8, counted: F) -> u8
    requires { F.IsAlwaysCallable counted }
    ensures { (q : T → Bool) → ((x : T) (b : Bool) → F.post counted x b → b ≡ q x) → result ≡ count_below T.WIDTH (λ i. q (row_at T.WIDTH T.free table.now w i)) }
{
    let mut n: u8 = 0;
    for k in 0..T::WIDTH {
        n += u8::from(counted(at(table, w, k)));
    }
    n
}
