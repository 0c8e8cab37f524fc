ghost use Rattle.std.specs.Prelude.{◌≡◌, Some, None, Ok, Err};
ghost use Rattle.tariff.specs.Kinds.{kind_numbered};
ghost use Rattle.tariff.specs.Discount.{discounted, discounted_tables};
ghost use Rattle.tariff.specs.Plans.{plan_ground, numbered, numbered_tables, plan_meaning, plan_tables, kind_of};

use crate::discount::Discount;
use crate::fault::PlanFault;
use crate::kind::TariffKind;
use crate::night::Night;
use crate::refused::Refused;
use crate::seasonal::Seasonal;
use crate::standard::Standard;

/// One of three, by the kind of tariff that it is of.
#[derive(Drop)]
pub enum ByTariff<A, B, C> {
    Standard(A),
    Night(B),
    Seasonal(C),
}

/// A supply as it is ordered: one of the three tariffs at a capacity, with a discount.
pub type Plan = ByTariff<Discount<Standard>, Discount<Night>, Discount<Seasonal>>;

impl<S: Drop> From<Refused<S, PlanFault>> for PlanFault {
    ghost from_gives = { λ e r. r ≡ e.fault };

    fn from(e: Refused<S, PlanFault>) -> PlanFault {
        e.fault
    }
}

impl<A, B, C> ByTariff<A, B, C> {
    pub fn kind(&self) -> TariffKind
        ensures { result ≡ kind_of self.now }
    {
        match self {
            ByTariff::Standard(_) => TariffKind::Standard,
            ByTariff::Night(_) => TariffKind::Night,
            ByTariff::Seasonal(_) => TariffKind::Seasonal,
        }
    }
}

impl Plan {
    /// The supply of a tariff number (1 Standard, 2 Night, 3 Seasonal), a capacity of 1 to 49 and a percent of 1 to 100.
    pub fn new(tariff: u8, capacity: u8, percent: u8) -> Result<Plan, PlanFault>
        ensures { elim result [ Ok p ↦ (plan_ground tariff capacity percent ≡ None) × (plan_meaning p ≡ discounted percent (numbered tariff capacity)) × (plan_tables p ≡ discounted_tables percent (numbered_tables tariff)) × (kind_numbered tariff ≡ Some (kind_of p)) | Err f ↦ plan_ground tariff capacity percent ≡ Some f ] }
    {
        // Each arm makes another type.
        Ok(match TariffKind::try_from(tariff)? {
            TariffKind::Standard => {
                Plan::Standard(Discount::new(Standard::new(capacity)?, percent)?)
            }
            TariffKind::Night => Plan::Night(Discount::new(Night::new(capacity)?, percent)?),
            TariffKind::Seasonal => {
                Plan::Seasonal(Discount::new(Seasonal::new(capacity)?, percent)?)
            }
        })
    }
}
