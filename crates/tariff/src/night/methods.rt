ghost use Rattle.std.specs.Prelude.{refl};
ghost use Rattle.tariff.specs.Capacities.{MadeAt};
ghost use Rattle.tariff.specs.Tariffs.{night, night_tables};
ghost use Rattle.tariff.specs.Lawful.{night_lawful};

use super::Night;
use crate::capacity::Capacity;
use crate::day::Day;
use crate::fault::PlanFault;
use crate::rounding::half_unless;
use crate::steps::{Step, StepTable};
use crate::supply::{Supply, Tariff};

impl Night {
    /// The tariff at a capacity of 1 to 49 kVA.
    pub fn new(capacity: u8) -> Result<Night, PlanFault>
        ensures { MadeAt (λ s. s.capacity.size) capacity result }
    {
        Ok(Night {
            capacity: Capacity::try_from(capacity)?,
            by_day: StepTable::of(&[(Some(90), 2_434), (Some(230), 3_243), (None, 3_745)]),
            by_night: StepTable::of(&[(None, 1_248)]),
        })
    }
}

impl Tariff for Night {
    const CLASSES: u8 = 2;

    ghost CLASSES = { 2 };

    ghost meaning = { λ t. (night t.capacity.size).tariff };

    ghost tables = { λ _. night_tables };

    ghost kind = { λ _. refl };

    ghost lawful = { λ t. (night_lawful t.capacity.size t.capacity.within.1).tariff };

    fn class(&self, day: u16, rest: bool, half_hour: u8) -> Option<u8> {
        Day::new(day)?;
        match half_hour {
            14..=45 => Some(0),
            0..=47 => Some(1),
            _ => None,
        }
    }

    fn step(&self, class: u8, step: u8) -> Option<Step> {
        match class {
            0 => self.by_day.step(step),
            1 => self.by_night.step(step),
            _ => None,
        }
    }
}

impl Supply for Night {
    ghost whole = { λ s. night s.capacity.size };

    ghost tariff = { λ _. refl };

    ghost bound = { λ s. night_lawful s.capacity.size s.capacity.within.1 };

    fn basic(&self, used: bool) -> u32 {
        let full = if self.capacity.size <= 6 {
            132_000
        } else {
            220_000 + 28_600 * u32::from(self.capacity.size.saturating_sub(10))
        };
        half_unless(used, full)
    }

    fn minimum(&self) -> u32 {
        33_044
    }
}
