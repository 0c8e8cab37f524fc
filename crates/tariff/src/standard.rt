mod methods;

ghost use Rattle.std.specs.Prelude.{◌≡◌};
ghost use Rattle.tariff.specs.Tables.{steps_of};
ghost use Rattle.tariff.specs.Tariffs.{standard_steps};

use crate::capacity::Capacity;
use crate::steps::StepTable;

/// The standard tariff: one class, three steps, a basic charge for each kVA.
#[derive(Clone, Copy)]
pub struct Standard {
    capacity: Capacity,
    energy: StepTable,
    ghost priced: { steps_of energy ≡ standard_steps },
}
