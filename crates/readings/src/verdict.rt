// Soundness: whether the tables hold what their records give.
ghost use Rattle.tables.specs.Lent.{lent_read};
ghost use Rattle.promises.specs.Promise.{Keeps};
ghost use Rattle.promises.specs.Events.{soundness_told};

use squares::Refusal;
use tables::ReadTables;

// Whether the tables of a town are sound.
pub fn soundness_of_town(town: ReadTables<'_>) -> Result<bool, Refusal>
    ensures { Keeps (lent_read town) (soundness_told result) }
{
    if !town.sized() {
        return Err(Refusal::Tables);
    }
    Ok(soundness::sound(town))
}
