// The soundness test, and the first broken point.
#![tactic(auto)]

ghost use Rattle.std.specs.Prelude.{◌≡◌};
ghost use Rattle.tables.specs.Machine.{eight, tables};
ghost use Rattle.states.specs.Sound.{sound, first_broken};
ghost use Rattle.sound.specs.Points.{point_of, place_of};

use tables::State;

// The six points of a sound state, each with its place.
#[derive(Clone, Copy, PartialEq, Eq)]
pub enum Point {
    Ranges = 1,
    CellsName,
    EntriesName,
    Messages,
    Weights,
    Room,
}

// The first broken point.
#[tactic(auto, using(crate::specs::Points::broken, crate::specs::Points::kept), unfolding(states::specs::Sound::first_broken))]
pub fn first_broken(s: &State) -> Option<Point>
    ensures { result ≡ point_of (first_broken eight (tables s.now)) }
{
    if !ranges::point_1(s) {
        return Some(Point::Ranges);
    }
    if !names::point_2(s) {
        return Some(Point::CellsName);
    }
    if !names::point_3(s) {
        return Some(Point::EntriesName);
    }
    if !waits::point_4(s) {
        return Some(Point::Messages);
    }
    if !weights::point_5(s) {
        return Some(Point::Weights);
    }
    if !weights::point_6(s) {
        return Some(Point::Room);
    }
    None
}

// A point's place, 1 to 6.
fn place_of(point: Point) -> u8
    ensures { result ≡ place_of point }
{
    point as u8
}

// The place of the first broken point; 0 where none is.
#[tactic(auto, using(crate::specs::Points::broken_placed))]
pub fn broken_place(s: &State) -> u8
    ensures { result ≡ first_broken eight (tables s.now) }
{
    first_broken(s).map_or(0, place_of)
}

#[tactic(auto, using(crate::specs::Points::none_broken))]
pub fn is_sound(s: &State) -> bool
    ensures { result ≡ sound eight (tables s.now) }
{
    first_broken(s).is_none()
}
