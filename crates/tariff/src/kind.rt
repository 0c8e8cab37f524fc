ghost use Rattle.std.specs.Prelude.{◌≡◌, Some, ok_or};
ghost use Rattle.tariff.specs.Kinds.{kind_numbered, kind_name};
ghost use Rattle.tariff.specs.declared.fault.PlanFault.{PlanFault};

use crate::fault::PlanFault;
use std::fmt;

/// The kinds of tariff.
#[derive(Clone, Copy, PartialEq, Eq, Debug)]
pub enum TariffKind {
    Standard,
    Night,
    Seasonal,
}

impl TryFrom<u8> for TariffKind {
    type Error = PlanFault;

    ghost try_from_gives = { λ number result. result ≡ ok_or (kind_numbered number) PlanFault.Tariff };

    /// The kind of a tariff number: 1 Standard, 2 Night, 3 Seasonal.
    fn try_from(number: u8) -> Result<TariffKind, PlanFault> {
        match number {
            1 => Ok(TariffKind::Standard),
            2 => Ok(TariffKind::Night),
            3 => Ok(TariffKind::Seasonal),
            _ => Err(PlanFault::Tariff),
        }
    }
}

impl TariffKind {
    pub fn name(self) -> &'static str
        ensures { result.now ≡ kind_name self }
    {
        match self {
            TariffKind::Standard => "Standard",
            TariffKind::Night => "Night",
            TariffKind::Seasonal => "Seasonal",
        }
    }
}

impl fmt::Display for TariffKind {
    ghost output = { λ kind. Some (kind_name kind) };

    fn fmt<W: fmt::Write>(&self, f: &mut fmt::Formatter<W>) -> fmt::Result {
        f.write_str(self.name())
    }
}
