// The text of an answer: a call's letter, then the refusal number alone, or 0 and the fields of the answer.
ghost use Rattle.std.specs.Prelude.{◌≤◌, ◌≡◌, [], ◌∷◌, length};
ghost use Rattle.model.specs.Answers.{done_is, added_is, reported_is, left_is, searched_is, count_is};
ghost use Rattle.print.specs.Text.{number, answer, Answers};
ghost use Rattle.texts.specs.Texts.{Letter, text_of};
ghost use Rattle.texts.specs.Asks.{value_of};
ghost use Rattle.texts.specs.Leaves.{Fronts};

use model::{Added, Crossed, Looked};
use print::{write_list, write_lists, write_number, write_numbers};
use squares::Refusal;

// How much of a list its first n numbers are: all of it where it has fewer.
fn front(n: usize, list: &[u32]) -> usize
    ensures { Fronts n list.now result }
{
    n.min(list.len())
}

// A line that is no record: ? and 14.
pub fn write_bad(out: &mut [u8]) -> usize
    ensures { Answers out.old out.new result (answer 63 (number 14 ∷ [])) }
{
    write_number(out, b'?', Refusal::Record.number())
}

// M: no field.
pub fn write_opened(said: Result<(), Refusal>, out: &mut [u8]) -> usize
    ensures { Answers out.old out.new result (text_of Letter.M (done_is said) []) }
{
    match said {
        Err(r) => write_number(out, b'M', r.number()),
        Ok(()) => write_number(out, b'M', 0),
    }
}

// A: squares, cars.
pub fn write_added(said: Result<Added, Refusal>, out: &mut [u8]) -> usize
    requires said_bound { value_of 0 (added_is said) ≤ 4294967295 }
    requires said_bound_2 { value_of 1 (added_is said) ≤ 4294967295 }
    ensures { Answers out.old out.new result (text_of Letter.A (added_is said) []) }
{
    match said {
        Err(r) => write_number(out, b'A', r.number()),
        Ok(a) => write_numbers(out, b'A', a.squares as u32, a.cars as u32),
    }
}

// D: no field.
pub fn write_removed(said: Result<(), Refusal>, out: &mut [u8]) -> usize
    ensures { Answers out.old out.new result (text_of Letter.D (done_is said) []) }
{
    match said {
        Err(r) => write_number(out, b'D', r.number()),
        Ok(()) => write_number(out, b'D', 0),
    }
}

// P: squares, zones entered, zones left.
pub fn write_reported(
    said: Result<Crossed, Refusal>,
    entered: &[u32],
    left: &[u32],
    out: &mut [u8],
) -> usize
    requires entered_len { length entered.now ≡ 16 }
    requires left_len { length left.now ≡ 16 }
    ensures { Answers out.old out.new result (text_of Letter.P (reported_is said) (entered.now ∷ left.now ∷ [])) }
{
    match said {
        Err(r) => write_number(out, b'P', r.number()),
        Ok(a) => {
            let first = front(a.entered, entered);
            let second = front(a.left, left);
            write_lists(out, b'P', a.squares, &entered[..first], &left[..second])
        }
    }
}

// L: squares, zones left.
pub fn write_left(said: Result<Looked, Refusal>, left: &[u32], out: &mut [u8]) -> usize
    requires { length left.now ≡ 16 }
    ensures { Answers out.old out.new result (text_of Letter.L (left_is said) (left.now ∷ [])) }
{
    match said {
        Err(r) => write_number(out, b'L', r.number()),
        Ok(a) => {
            let many = front(a.zones, left);
            write_list(out, b'L', a.squares, &left[..many])
        }
    }
}

// S: squares, zones found.
pub fn write_searched(said: Result<Looked, Refusal>, zones: &[u32], out: &mut [u8]) -> usize
    requires { length zones.now ≡ 16 }
    ensures { Answers out.old out.new result (text_of Letter.S (searched_is said) (zones.now ∷ [])) }
{
    match said {
        Err(r) => write_number(out, b'S', r.number()),
        Ok(a) => {
            let many = front(a.zones, zones);
            write_list(out, b'S', a.squares, &zones[..many])
        }
    }
}

// R: how many cars, and which.
pub fn write_roster(said: Result<usize, Refusal>, cars: &[u32], out: &mut [u8]) -> usize
    requires cars_len { length cars.now ≡ 64 }
    requires said_bound { value_of 0 (count_is said) ≤ 4294967295 }
    ensures { Answers out.old out.new result (text_of Letter.R (count_is said) (cars.now ∷ [])) }
{
    match said {
        Err(r) => write_number(out, b'R', r.number()),
        Ok(count) => {
            let many = front(count, cars);
            write_list(out, b'R', count as u32, &cars[..many])
        }
    }
}
