// The calls that only read: search, scoring, roster, count, holder, where a car is, soundness.
#![tactic(auto)]

mod search; // search.rt: the zones that hold a position
mod scoring; // scoring.rt: whether any zone holds a position
mod roster; // roster.rt: the cars of a zone
mod count; // count.rt: how many cars are in a zone
mod holder; // holder.rt: how a zone stands between the teams
mod car; // car.rt: where a car is
mod verdict; // verdict.rt: soundness

pub use car::where_is_car;
pub use count::count_of_zone;
pub use holder::holder_of_zone;
pub use roster::roster_of_zone;
pub use scoring::scoring_of_spot;
pub use search::search_zones;
pub use verdict::soundness_of_town;
