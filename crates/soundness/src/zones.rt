// The zones: whether they fit, which keys are in use by them, and how many entries they have.
ghost use Rattle.std.specs.Prelude.{◌<◌, ◌≡◌, length};
ghost use Rattle.order.specs.Sums.{sum};
ghost use Rattle.soundness.specs.Tests.{every, zone_fits, key_right, right_at, size_at, Zoned, Fitting, SizeOf};

use crate::entry::square_at;
use cuts::{cut_count, in_cut};
use squares::{Rect, Shape};
use tables::rect_in;

// The zones' table, of a town of this shape, and how many zones it holds.
#[derive(Clone, Copy)]
pub struct Zones<'a> {
    pub s: Shape,
    pub zones: &'a [u32],
    pub many: usize,
}

impl<'a> Zones<'a> {
    // Whether a zone's rectangle fits, if it stands.
    fn fits(self, z: usize) -> bool
        requires zoned { Zoned self.s self.zones.now self.many }
        requires z_bound { z < self.many }
        ensures { result ≡ zone_fits self.entry.s self.entry.zones.now z }
    {
        let r = rect_in(self.zones, z);
        if r.w == 0 {
            return true;
        }
        self.s.fits(r)
    }

    // Whether every zone that stands fits.
    pub fn all_fit(self) -> bool
        requires { Zoned self.s self.zones.now self.many }
        ensures { result ≡ every (zone_fits self.entry.s self.entry.zones.now) self.entry.many }
    {
        (0..self.many).all(|z| self.fits(z))
    }

    // Whether a key is one of those in use by the zones.
    fn key_right(self, key: u32) -> bool
        requires { Fitting self.s self.zones.now self.many }
        ensures { result ≡ key_right self.entry.s self.entry.zones.now key }
    {
        let p = key / 256;
        if self.s.squares() <= p {
            return false;
        }
        let z = (key % 256) as usize;
        if self.many <= z {
            return false;
        }
        let r = rect_in(self.zones, z);
        if r.w == 0 {
            return false;
        }
        let q = square_at(self.s, p);
        in_cut(self.s, r, q.level, q.number)
    }

    // Whether each entry is a key in use.
    pub fn rights(self, entries: &[u32]) -> bool
        requires { Fitting self.s self.zones.now self.many }
        ensures { result ≡ every (right_at self.entry.s self.entry.zones.now entries.now) (length entries.now) }
    {
        entries.iter().all(|key| self.key_right(*key))
    }

    // How many entries a zone has: the squares of its cut, if it stands.
    fn cut_size(self, z: usize) -> usize
        requires fitting { Fitting self.s self.zones.now self.many }
        requires z_bound { z < self.many }
        ensures { SizeOf self.entry.s self.entry.zones.now z result }
    {
        let r = rect_in(self.zones, z);
        if r.w == 0 {
            return 0;
        }
        cut_count(self.s, r)
    }

    // How many entries all zones have.
    pub fn cut_sizes(self) -> usize
        requires { Fitting self.s self.zones.now self.many }
        ensures { result ≡ sum (size_at self.entry.s self.entry.zones.now) self.entry.many }
    {
        let mut n = 0;
        for z in 0..self.many {
            n += self.cut_size(z);
        }
        n
    }
}
