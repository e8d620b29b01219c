// Why a call is refused, and the number that says it to C and in the log.
ghost use Rattle.std.specs.Prelude.{◌≡◌};
ghost use Rattle.squares.specs.Refusals.{number_of};

#[derive(Clone, Copy, Debug, PartialEq, Eq)]
pub enum Refusal {
    // the shape is beyond the bounds
    Shape,
    // a capacity is beyond its bound
    Capacity,
    // a table has another length than the shape and the capacities call for
    Tables,
    // the town has no such zone number
    ZoneNumber,
    // the town has no such car number
    CarNumber,
    // the zone stands already
    ZoneStands,
    // no such zone stands
    NoZone,
    // the car is not on the map
    NoCar,
    // the rectangle has no cell, or reaches past the town
    Rectangle,
    // the position is not on the map
    OffMap,
    // a buffer is too short
    Buffer,
    // the entries have no room
    Entries,
    // there is no such square
    Square,
    // the line is no record
    Record,
    // the car is on the map for another team, or there is no such team
    Team,
}

impl Refusal {
    // Its number, from 1 to 15.
    pub fn number(self) -> u32
        ensures { result ≡ number_of self }
    {
        match self {
            Refusal::Shape => 1,
            Refusal::Capacity => 2,
            Refusal::Tables => 3,
            Refusal::ZoneNumber => 4,
            Refusal::CarNumber => 5,
            Refusal::ZoneStands => 6,
            Refusal::NoZone => 7,
            Refusal::NoCar => 8,
            Refusal::Rectangle => 9,
            Refusal::OffMap => 10,
            Refusal::Buffer => 11,
            Refusal::Entries => 12,
            Refusal::Square => 13,
            Refusal::Record => 14,
            Refusal::Team => 15,
        }
    }
}
