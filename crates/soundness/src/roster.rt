// The rosters: whether each byte is right. Within a row no byte stops the others from being asked, so that
// many are asked at a time.
ghost use Rattle.std.specs.Prelude.{◌*◌, ◌<◌, ◌≡◌, false, eqb, length};
ghost use Rattle.order.specs.Sums.{bit};
ghost use Rattle.tables.specs.Slots.{car_between};
ghost use Rattle.soundness.specs.Tests.{every, has, says, byte_right, Fitting, Riding};

use crate::cars::Cars;
use crate::zones::Zones;
use position::{Bands, bands_of};
use tables::{car_between, rect_in};

// Whether a byte says yes or no as it should.
fn is_bit(byte: u8, yes: bool) -> bool
    ensures { result ≡ eqb byte (bit yes) }
{
    byte == u8::from(yes)
}

// Whether each byte of a row says if its car is in the cells of two bands.
fn bytes_between(cars: &[u32], spots: &[f32], bands: Bands, row: &[u8]) -> bool
    requires cars_len { length cars.now ≡ length row.now }
    requires spots_len { length spots.now ≡ 2 * length row.now }
    ensures { result ≡ says row.now (car_between cars.now spots.now bands.columns bands.rows) }
{
    let mut right = true;
    for (c, byte) in row.iter().enumerate() {
        right &= is_bit(*byte, car_between(cars, spots, bands, c));
    }
    right
}

// Whether each byte of a row says no.
fn bytes_clear(row: &[u8]) -> bool
    ensures { result ≡ says row.now (λ c. false) }
{
    let mut clear = true;
    for byte in row {
        clear &= *byte == 0;
    }
    clear
}

// Whether each byte of a zone's row says if its roster has the car. The cars' two tables are passed as they are: tried as `Cars`,
// the proof did not close, since that each spot is an f32 is known only of a slice passed by itself.
fn row_right(zones: Zones<'_>, cars: &[u32], spots: &[f32], z: usize, row: &[u8]) -> bool
    requires fitting { Fitting zones.s zones.zones.now zones.many }
    requires riding { Riding zones.s cars.now spots.now (length row.now) }
    requires z_bound { z < zones.many }
    ensures { result ≡ says row.now (has zones.entry.s zones.entry.zones.now cars.now spots.now z) }
{
    let r = rect_in(zones.zones, z);
    if r.w == 0 {
        return bytes_clear(row);
    }
    bytes_between(cars, spots, bands_of(zones.s, r), row)
}

// Whether each byte of the rosters is right.
pub fn rosters_right(zones: Zones<'_>, cars: Cars<'_>, rosters: &[u8]) -> bool
    requires fitting { Fitting zones.s zones.zones.now zones.many }
    requires riding { Riding zones.s cars.cars.now cars.spots.now cars.many }
    requires rosters_len { length rosters.now ≡ zones.many * cars.many }
    ensures { result ≡ every (byte_right zones.entry.s zones.entry.zones.now cars.entry.cars.now cars.entry.spots.now rosters.now cars.entry.many) (zones.entry.many * cars.entry.many) }
{
    let C = cars.many;
    (0..zones.many).all(|z| row_right(zones, cars.cars, cars.spots, z, &rosters[z * C..z * C + C]))
}
