mod methods;

ghost use Rattle.std.specs.Prelude.{◌≡◌, [], ◌∷◌, None};
ghost use Rattle.tariff.specs.Tables.{steps_of};

use crate::capacity::Capacity;
use crate::steps::StepTable;

/// The seasonal tariff: a dear peak on summer afternoons, day time by season, and cheap remaining hours.
#[derive(Clone, Copy)]
pub struct Seasonal {
    capacity: Capacity,
    peak: StepTable,
    summer_day: StepTable,
    other_day: StepTable,
    remaining: StepTable,
    ghost peak_priced: { steps_of peak ≡ (None, 3853) ∷ [] },
    ghost summer_priced: { steps_of summer_day ≡ (None, 3011) ∷ [] },
    ghost other_priced: { steps_of other_day ≡ (None, 2736) ∷ [] },
    ghost remaining_priced: { steps_of remaining ≡ (None, 1553) ∷ [] },
}
