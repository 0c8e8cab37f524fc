mod methods;

ghost use Rattle.std.specs.Prelude.{◌≡◌, [], ◌∷◌, None};
ghost use Rattle.tariff.specs.Tables.{steps_of};
ghost use Rattle.tariff.specs.Tariffs.{day_steps};

use crate::capacity::Capacity;
use crate::steps::StepTable;

/// The night tariff: dearer by day, from 7:00 to 23:00, and cheap in the eight hours of the night.
#[derive(Clone, Copy)]
pub struct Night {
    capacity: Capacity,
    by_day: StepTable,
    by_night: StepTable,
    ghost day_priced: { steps_of by_day ≡ day_steps },
    ghost night_priced: { steps_of by_night ≡ (None, 1248) ∷ [] },
}
