// Search, scoring, roster, count, holder, where a car is, and soundness.
ghost use Rattle.tables.specs.Lent.{lent, as_read};
ghost use Rattle.promises.specs.Events.{searched, scoring_told, roster_told, count_told, holder_told, soundness_told};
ghost use Rattle.boundary.specs.Promises.{point, Relays, Pointed};

use position::Position;
use tables::ReadTables;
use values::{
    tell_holder, tell_looked, tell_number, tell_scoring, tell_soundness, tell_where, tell_written,
};

// Two values: the squares looked into, the zones found.
#[unsafe(no_mangle)]
pub extern "C" fn unwadegiro_search(
    head: &[u32],
    zones: &[u32],
    cars: &[u32],
    spots: &[f32],
    starts: &[u32],
    entries: &[u32],
    rosters: &[u8],
    tallies: &[u32],
    x: f32,
    y: f32,
    found: &mut [u32],
    values: &mut [u32],
) -> u32
    ensures { Relays 2 (lent (as_read head) (as_read zones) (as_read cars) (as_read spots) (as_read starts) (as_read entries) (as_read rosters) (as_read tallies)) (searched (point x y) found) values.old values.new result }
{
    let p = Position { x, y };
    let town = ReadTables {
        head,
        zones,
        cars,
        spots,
        starts,
        entries,
        rosters,
        tallies,
    };
    let searched = readings::search_zones(town, p, found);
    tell_looked(searched, values)
}

// Two values: 1 where a zone holds the position and 0 where none does, the levels looked at.
#[unsafe(no_mangle)]
pub extern "C" fn unwadegiro_scoring(
    head: &[u32],
    zones: &[u32],
    cars: &[u32],
    spots: &[f32],
    starts: &[u32],
    entries: &[u32],
    rosters: &[u8],
    tallies: &[u32],
    x: f32,
    y: f32,
    values: &mut [u32],
) -> u32
    ensures { Relays 2 (lent (as_read head) (as_read zones) (as_read cars) (as_read spots) (as_read starts) (as_read entries) (as_read rosters) (as_read tallies)) (scoring_told (point x y)) values.old values.new result }
{
    let p = Position { x, y };
    let town = ReadTables {
        head,
        zones,
        cars,
        spots,
        starts,
        entries,
        rosters,
        tallies,
    };
    let scoring = readings::scoring_of_spot(town, p);
    tell_scoring(scoring, values)
}

// One value: the cars written.
#[unsafe(no_mangle)]
pub extern "C" fn unwadegiro_roster(
    head: &[u32],
    zones: &[u32],
    cars: &[u32],
    spots: &[f32],
    starts: &[u32],
    entries: &[u32],
    rosters: &[u8],
    tallies: &[u32],
    zone: u32,
    inside: &mut [u32],
    values: &mut [u32],
) -> u32
    ensures { Relays 1 (lent (as_read head) (as_read zones) (as_read cars) (as_read spots) (as_read starts) (as_read entries) (as_read rosters) (as_read tallies)) (roster_told zone inside) values.old values.new result }
{
    let town = ReadTables {
        head,
        zones,
        cars,
        spots,
        starts,
        entries,
        rosters,
        tallies,
    };
    let roster = readings::roster_of_zone(town, zone, inside);
    tell_written(roster, values)
}

// One value: the cars in the zone.
#[unsafe(no_mangle)]
pub extern "C" fn unwadegiro_count(
    head: &[u32],
    zones: &[u32],
    cars: &[u32],
    spots: &[f32],
    starts: &[u32],
    entries: &[u32],
    rosters: &[u8],
    tallies: &[u32],
    zone: u32,
    values: &mut [u32],
) -> u32
    ensures { Relays 1 (lent (as_read head) (as_read zones) (as_read cars) (as_read spots) (as_read starts) (as_read entries) (as_read rosters) (as_read tallies)) (count_told zone) values.old values.new result }
{
    let town = ReadTables {
        head,
        zones,
        cars,
        spots,
        starts,
        entries,
        rosters,
        tallies,
    };
    let count = readings::count_of_zone(town, zone);
    tell_number(count, values)
}

// Nine values: the cars of each team in the zone, from team 0 on, and the holder.
#[unsafe(no_mangle)]
pub extern "C" fn unwadegiro_holder(
    head: &[u32],
    zones: &[u32],
    cars: &[u32],
    spots: &[f32],
    starts: &[u32],
    entries: &[u32],
    rosters: &[u8],
    tallies: &[u32],
    zone: u32,
    values: &mut [u32],
) -> u32
    ensures { Relays 9 (lent (as_read head) (as_read zones) (as_read cars) (as_read spots) (as_read starts) (as_read entries) (as_read rosters) (as_read tallies)) (holder_told zone) values.old values.new result }
{
    let town = ReadTables {
        head,
        zones,
        cars,
        spots,
        starts,
        entries,
        rosters,
        tallies,
    };
    let holder = readings::holder_of_zone(town, zone);
    tell_holder(holder, values)
}

// The position's two coordinates; 0 and 0 on a refusal.
#[unsafe(no_mangle)]
pub extern "C" fn unwadegiro_where(
    head: &[u32],
    zones: &[u32],
    cars: &[u32],
    spots: &[f32],
    starts: &[u32],
    entries: &[u32],
    rosters: &[u8],
    tallies: &[u32],
    car: u32,
    position: &mut [f32],
) -> u32
    ensures { Pointed (lent (as_read head) (as_read zones) (as_read cars) (as_read spots) (as_read starts) (as_read entries) (as_read rosters) (as_read tallies)) car position.old position.new result }
{
    let town = ReadTables {
        head,
        zones,
        cars,
        spots,
        starts,
        entries,
        rosters,
        tallies,
    };
    let found = readings::where_is_car(town, car);
    tell_where(found, position)
}

// One value: 1 where the tables are sound, 0 where they are not.
#[unsafe(no_mangle)]
pub extern "C" fn unwadegiro_sound(
    head: &[u32],
    zones: &[u32],
    cars: &[u32],
    spots: &[f32],
    starts: &[u32],
    entries: &[u32],
    rosters: &[u8],
    tallies: &[u32],
    values: &mut [u32],
) -> u32
    ensures { Relays 1 (lent (as_read head) (as_read zones) (as_read cars) (as_read spots) (as_read starts) (as_read entries) (as_read rosters) (as_read tallies)) soundness_told values.old values.new result }
{
    let town = ReadTables {
        head,
        zones,
        cars,
        spots,
        starts,
        entries,
        rosters,
        tallies,
    };
    let soundness = readings::soundness_of_town(town);
    tell_soundness(soundness, values)
}
