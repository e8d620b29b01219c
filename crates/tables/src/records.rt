// The records: the shape and the capacities, a zone and its rectangle, a car, its team and its position.
// A record stands flat in a table, as C lends it, so these functions take it number by number, each as a definition does.
ghost use Rattle.std.specs.Prelude.{◌≡◌, ◌+◌, ◌*◌, ◌<◌, ◌≤◌, length, slice_index};
ghost use Rattle.tables.specs.Tables.{head_of, shape_in, opened_by, rect_in, stands_in, placed_in, spot_in};
ghost use Rattle.tables.specs.Slots.{team_fits, slot_in, car_between};

use model::Opening;
use position::{Bands, Position, in_bands};
use squares::{Rect, Shape};

// Teams are numbered from 0, the spectators, to 7.
pub const LAST_TEAM: u32 = 7;

pub fn shape_in(head: &[u32]) -> Shape
    requires { 3 ≤ length head.now }
    ensures { result ≡ shape_in head.now }
{
    Shape {
        k: head[0],
        P: head[1],
        Q: head[2],
    }
}

// What an open was given.
pub fn opened_by(head: &[u32]) -> Opening
    requires { 6 ≤ length head.now }
    ensures { result ≡ opened_by head.now }
{
    Opening {
        shape: shape_in(head),
        zones: head[3],
        cars: head[4],
        entries: head[5],
    }
}

pub fn write_head(head: &mut [u32], o: Opening)
    requires { length head.old ≡ 6 }
    ensures { head.new ≡ head_of o.shape o.zones o.cars o.entries }
{
    let s = o.shape;
    head.copy_from_slice(&[s.k, s.P, s.Q, o.zones, o.cars, o.entries]);
}

pub fn zone_room(head: &[u32]) -> u32
    requires { 6 ≤ length head.now }
    ensures { result ≡ slice_index head.now 3 }
{
    head[3]
}

pub fn car_room(head: &[u32]) -> u32
    requires { 6 ≤ length head.now }
    ensures { result ≡ slice_index head.now 4 }
{
    head[4]
}

pub fn entry_room(head: &[u32]) -> u32
    requires { 6 ≤ length head.now }
    ensures { result ≡ slice_index head.now 5 }
{
    head[5]
}

pub fn rect_in(zones: &[u32], z: usize) -> Rect
    requires { 4 * z + 4 ≤ length zones.now }
    ensures { result ≡ rect_in zones.now z }
{
    let at = 4 * z;
    Rect {
        a: zones[at],
        b: zones[at + 1],
        w: zones[at + 2],
        h: zones[at + 3],
    }
}

pub fn stands_in(zones: &[u32], z: usize) -> bool
    requires { 4 * z + 4 ≤ length zones.now }
    ensures { result ≡ stands_in zones.now z }
{
    let w = rect_in(zones, z).w;
    0 < w
}

pub fn placed_in(cars: &[u32], c: usize) -> bool
    requires { c < length cars.now }
    ensures { result ≡ placed_in cars.now c }
{
    let car = cars[c];
    0 < car
}

// Whether car c may report a team: at most the last, and on the map the one that it has.
pub fn team_fits(cars: &[u32], c: usize, team: u32) -> bool
    requires { c < length cars.now }
    ensures { result ≡ team_fits cars.now c team }
{
    if LAST_TEAM < team {
        return false;
    }
    let car = cars[c];
    if car == 0 {
        return true;
    }
    car == team + 1
}

// Which of the eight teams car c's record says: its own, where that is at most 7.
pub fn slot_in(cars: &[u32], c: usize) -> usize
    requires { c < length cars.now }
    ensures { result ≡ slot_in cars.now c }
{
    let next = std::num::wrapping_add_u32(cars[c], LAST_TEAM);
    (next % 8) as usize
}

pub fn spot_in(spots: &[f32], c: usize) -> Position
    requires { 2 * c + 2 ≤ length spots.now }
    ensures { result ≡ spot_in spots.now c }
{
    let at = 2 * c;
    Position {
        x: spots[at],
        y: spots[at + 1],
    }
}

// Whether car c is placed, and in the cells of two bands. No test is a branch, so that many cars are asked at a time.
pub fn car_between(cars: &[u32], spots: &[f32], bands: Bands, c: usize) -> bool
    requires c_in_bounds { c < length cars.now }
    requires c_in_bounds_2 { 2 * c + 2 ≤ length spots.now }
    ensures { result ≡ car_between cars.now spots.now bands.columns bands.rows c }
{
    placed_in(cars, c) & in_bands(bands, spot_in(spots, c))
}
