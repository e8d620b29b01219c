// The cars: whether those that are placed fit.
ghost use Rattle.std.specs.Prelude.{◌<◌, ◌≡◌};
ghost use Rattle.tables.specs.Asks.{Parked};
ghost use Rattle.soundness.specs.Tests.{every, car_fits};

use position::locate;
use squares::Shape;
use tables::{LAST_TEAM, spot_in};

// The cars' tables, of a town of this shape, and how many cars they hold.
#[derive(Clone, Copy)]
pub struct Cars<'a> {
    pub s: Shape,
    pub cars: &'a [u32],
    pub spots: &'a [f32],
    pub many: usize,
}

impl<'a> Cars<'a> {
    // Whether a car's team is one of the eight and its position is on the map, if it is placed.
    fn fits(self, c: usize) -> bool
        requires parked { Parked self.s self.cars.now self.spots.now self.many }
        requires c_bound { c < self.many }
        ensures { result ≡ car_fits self.entry.s self.entry.cars.now self.entry.spots.now c }
    {
        let car = self.cars[c];
        if car == 0 {
            return true;
        }
        if LAST_TEAM + 1 < car {
            return false;
        }
        locate(self.s, spot_in(self.spots, c)).is_some()
    }

    // Whether every car that is placed fits.
    pub fn all_fit(self) -> bool
        requires { Parked self.s self.cars.now self.spots.now self.many }
        ensures { result ≡ every (car_fits self.entry.s self.entry.cars.now self.entry.spots.now) self.entry.many }
    {
        (0..self.many).all(|c| self.fits(c))
    }
}
