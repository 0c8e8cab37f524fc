ghost use Rattle.std.specs.Prelude.{◌≤◌};
ghost use Rattle.tariff.specs.Capacities.{MadeAt};

use crate::fault::PlanFault;

/// The capacity that a contract is for: 1 to 49 kVA, or kW with the seasonal tariff.
#[derive(Clone, Copy)]
pub struct Capacity {
    pub size: u8,
    ghost within: { (1 ≤ size) × (size ≤ 49) },
}

impl TryFrom<u8> for Capacity {
    type Error = PlanFault;

    ghost try_from_gives = { MadeAt (λ c. c.size) };

    fn try_from(size: u8) -> Result<Capacity, PlanFault> {
        if !(1..=49).contains(&size) {
            return Err(PlanFault::Capacity);
        }
        Ok(Capacity { size })
    }
}
