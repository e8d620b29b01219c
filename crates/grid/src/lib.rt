// The calls from a shape alone: the number of a square, the square of a number, the cut of a rectangle.
// They take a shape's numbers and a corner's one by one, as C lends them: the C interface.
#![tactic(auto)]

mod numbers; // numbers.rt: the number of a square and the square of a number
mod cut; // cut.rt: the cut of a rectangle into a lent buffer

pub use cut::cut_of_rectangle;
pub use numbers::{number_of_square, square_of_number};
