// An answer's numbers made small: on tables that are not ready a call may answer any.
ghost use Rattle.model.specs.Answers.{added_is, count_is};
ghost use Rattle.room.specs.Leaves.{Tamed};

use model::Added;
use squares::Refusal;

// At most 2,048 squares and 64 cars.
pub fn tame_added(said: Result<Added, Refusal>) -> Result<Added, Refusal>
    ensures { Tamed 2048 64 (added_is said) (added_is result) }
{
    said.map(|a| {
        if a.squares <= 2048 && a.cars <= 64 {
            a
        } else {
            Added {
                squares: 2048,
                cars: 64,
            }
        }
    })
}

// At most 64 cars.
pub fn tame_roster(said: Result<usize, Refusal>) -> Result<usize, Refusal>
    ensures { Tamed 64 0 (count_is said) (count_is result) }
{
    said.map(|cars| cars.min(64))
}
