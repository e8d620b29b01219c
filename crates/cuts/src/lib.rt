// The cut of a rectangle into squares: how many they are, the squares, level by level, and whether a square is one of them.
#![tactic(auto)]

mod count; // count.rt: how many squares a cut has
mod descent; // descent.rt: the squares of a cut, level by level
mod member; // member.rt: whether a square is in a cut

pub use count::cut_count;
pub use descent::cut_levels;
pub use member::in_cut;
