// Each call's answer told: the refusal with every value 0, or 0 and the values.
ghost use Rattle.std.specs.Prelude.{[]};
ghost use Rattle.squares.specs.Refusals.{fields};
ghost use Rattle.grid.specs.Promises.{number_is, square_is, cut_is};
ghost use Rattle.model.specs.Answers.{done_is, added_is, ridden_is, reported_is, left_is, searched_is, scoring_is, count_is, holder_is, where_is, soundness_is};
ghost use Rattle.values.specs.Promises.{said, Tells, Points};

use crate::tell::{point_two, tell_refusal, tell_values};
use model::{Added, Crossed, Looked, Ridden, Scoring, Standing};
use position::Position;
use squares::{Refusal, Square};

// A number: that of a square, that of the cars in a zone.
pub fn tell_number(a: Result<u32, Refusal>, values: &mut [u32]) -> u32
    ensures square { Tells (fields 1 (number_is a)) values.old values.new result }
    ensures cars { Tells (said 1 (count_is a)) values.old values.new result }
{
    match a {
        Ok(n) => tell_values([n as usize], values),
        Err(r) => tell_refusal::<1>(r, values),
    }
}

// How many were written to a buffer: the squares of a cut, the cars on a roster.
pub fn tell_written(a: Result<usize, Refusal>, values: &mut [u32]) -> u32
    ensures cut { Tells (fields 1 (cut_is a)) values.old values.new result }
    ensures roster { Tells (said 1 (count_is a)) values.old values.new result }
{
    match a {
        Ok(n) => tell_values([n], values),
        Err(r) => tell_refusal::<1>(r, values),
    }
}

pub fn tell_square(a: Result<Square, Refusal>, values: &mut [u32]) -> u32
    ensures { Tells (fields 3 (square_is a)) values.old values.new result }
{
    match a {
        Ok(q) => tell_values([q.x as usize, q.y as usize, q.side as usize], values),
        Err(r) => tell_refusal::<3>(r, values),
    }
}

// An open, a remove: no values.
pub fn tell_done(a: Result<(), Refusal>) -> u32
    ensures { Tells (said 0 (done_is a)) [] [] result }
{
    match a {
        Ok(()) => 0,
        Err(r) => r.number(),
    }
}

pub fn tell_added(a: Result<Added, Refusal>, values: &mut [u32]) -> u32
    ensures { Tells (said 2 (added_is a)) values.old values.new result }
{
    match a {
        Ok(a) => tell_values([a.squares, a.cars], values),
        Err(r) => tell_refusal::<2>(r, values),
    }
}

pub fn tell_ridden(a: Result<Ridden, Refusal>, values: &mut [u32]) -> u32
    ensures { Tells (said 4 (ridden_is a)) values.old values.new result }
{
    match a {
        Ok(a) => tell_values([a.dropped, a.taken, a.entered, a.left], values),
        Err(r) => tell_refusal::<4>(r, values),
    }
}

pub fn tell_reported(a: Result<Crossed, Refusal>, values: &mut [u32]) -> u32
    ensures { Tells (said 3 (reported_is a)) values.old values.new result }
{
    match a {
        Ok(a) => tell_values([a.squares as usize, a.entered, a.left], values),
        Err(r) => tell_refusal::<3>(r, values),
    }
}

pub fn tell_looked(a: Result<Looked, Refusal>, values: &mut [u32]) -> u32
    ensures left { Tells (said 2 (left_is a)) values.old values.new result }
    ensures found { Tells (said 2 (searched_is a)) values.old values.new result }
{
    match a {
        Ok(a) => tell_values([a.squares as usize, a.zones], values),
        Err(r) => tell_refusal::<2>(r, values),
    }
}

pub fn tell_scoring(a: Result<Scoring, Refusal>, values: &mut [u32]) -> u32
    ensures { Tells (said 2 (scoring_is a)) values.old values.new result }
{
    match a {
        Ok(a) => tell_values([a.held as usize, a.levels as usize], values),
        Err(r) => tell_refusal::<2>(r, values),
    }
}

pub fn tell_holder(a: Result<Standing, Refusal>, values: &mut [u32]) -> u32
    ensures { Tells (said 9 (holder_is a)) values.old values.new result }
{
    match a {
        Ok(s) => tell_values(
            [
                s.team0 as usize,
                s.team1 as usize,
                s.team2 as usize,
                s.team3 as usize,
                s.team4 as usize,
                s.team5 as usize,
                s.team6 as usize,
                s.team7 as usize,
                s.holder as usize,
            ],
            values,
        ),
        Err(r) => tell_refusal::<9>(r, values),
    }
}

pub fn tell_soundness(a: Result<bool, Refusal>, values: &mut [u32]) -> u32
    ensures { Tells (said 1 (soundness_is a)) values.old values.new result }
{
    match a {
        Ok(sound) => tell_values([sound as usize], values),
        Err(r) => tell_refusal::<1>(r, values),
    }
}

pub fn tell_where(a: Result<Position, Refusal>, position: &mut [f32]) -> u32
    ensures { Points (where_is a) position.old position.new result }
{
    match a {
        Ok(p) => {
            point_two(p.x, p.y, position);
            0
        }
        Err(r) => {
            point_two(0.0, 0.0, position);
            r.number()
        }
    }
}
