// What an open is given.
use squares::Shape;

// A shape, and the capacities of zones, cars and entries.
#[derive(Clone, Copy)]
pub struct Opening {
    pub shape: Shape,
    pub zones: u32,
    pub cars: u32,
    pub entries: u32,
}
