ghost use Rattle.std.specs.Prelude.{refl};
ghost use Rattle.tariff.specs.Capacities.{MadeAt};
ghost use Rattle.tariff.specs.Tariffs.{standard, standard_tables};
ghost use Rattle.tariff.specs.Lawful.{standard_lawful};

use super::Standard;
use crate::capacity::Capacity;
use crate::day::Day;
use crate::fault::PlanFault;
use crate::rounding::half_unless;
use crate::steps::{Step, StepTable};
use crate::supply::{Supply, Tariff};

impl Standard {
    /// The tariff at a capacity of 1 to 49 kVA.
    pub fn new(capacity: u8) -> Result<Standard, PlanFault>
        ensures { MadeAt (λ s. s.capacity.size) capacity result }
    {
        Ok(Standard {
            capacity: Capacity::try_from(capacity)?,
            energy: StepTable::of(&[(Some(120), 1_988), (Some(300), 2_646), (None, 3_057)]),
        })
    }
}

impl Tariff for Standard {
    const CLASSES: u8 = 1;

    ghost CLASSES = { 1 };

    ghost meaning = { λ t. (standard t.capacity.size).tariff };

    ghost tables = { λ _. standard_tables };

    ghost kind = { λ _. refl };

    ghost lawful = { λ t. (standard_lawful t.capacity.size t.capacity.within.1).tariff };

    fn class(&self, day: u16, rest: bool, half_hour: u8) -> Option<u8> {
        Day::new(day)?;
        match half_hour {
            0..=47 => Some(0),
            _ => None,
        }
    }

    fn step(&self, class: u8, step: u8) -> Option<Step> {
        match class {
            0 => self.energy.step(step),
            _ => None,
        }
    }
}

impl Supply for Standard {
    ghost whole = { λ s. standard s.capacity.size };

    ghost tariff = { λ _. refl };

    ghost bound = { λ s. standard_lawful s.capacity.size s.capacity.within.1 };

    fn basic(&self, used: bool) -> u32 {
        let full = 28_600 * u32::from(self.capacity.size);
        half_unless(used, full)
    }

    fn minimum(&self) -> u32 {
        0
    }
}
