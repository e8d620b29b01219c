// A town's shape, its squares and their numbers, and its rectangles.
#![tactic(auto)]

mod powers; // powers.rt: powers of two and four, bits interleaved and taken apart
mod shape; // shape.rt: the shape, a cell, a rectangle, a square, and what comes from the shape
mod differ; // differ.rt: on how many levels two cells lie in different squares
mod rect; // rect.rt: where a square lies to a rectangle
mod ride; // ride.rt: a rectangle moved
mod refusal; // refusal.rt: why a call is refused

pub use differ::steps_apart;
pub use powers::two_to;
pub use refusal::Refusal;
pub use shape::{Cell, Rect, Shape, Square};
