ghost use Rattle.std.specs.Prelude.{◌≡◌};
ghost use Rattle.bill.specs.Statements.{class_name};

use tariff::kind::TariffKind;

// A time class of a kind of tariff, counted from 0.
#[derive(Clone, Copy)]
pub struct Class {
    pub kind: TariffKind,
    pub number: u8,
}

impl Class {
    // What a statement calls it.
    pub fn name(self) -> &'static str
        ensures { result.now ≡ class_name self.kind self.number }
    {
        match (self.kind, self.number) {
            (TariffKind::Standard, _) => "all hours",
            (TariffKind::Night, 0) => "7:00-23:00",
            (TariffKind::Night, _) => "other hours",
            (TariffKind::Seasonal, 0) => "summer peak",
            (TariffKind::Seasonal, 1) => "summer day",
            (TariffKind::Seasonal, 2) => "other season day",
            (TariffKind::Seasonal, _) => "remaining hours",
        }
    }
}
