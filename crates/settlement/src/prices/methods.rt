ghost use Rattle.std.specs.Prelude.{◌≡◌, pos};
ghost use Rattle.settlement.specs.Prices.{PricesGiven};

use super::{MonthPrices, Prices};
use crate::fault::MonthFault;

impl TryFrom<MonthPrices> for Prices {
    type Error = MonthFault;

    ghost try_from_gives = { PricesGiven };

    fn try_from(given: MonthPrices) -> Result<Prices, MonthFault> {
        let MonthPrices { fuel, levy, buy } = given;
        if !(-10_000..=10_000).contains(&fuel) || levy > 10_000 || buy > 10_000 {
            return Err(MonthFault::Price);
        }
        Ok(Prices { fuel, levy, buy })
    }
}

// A default cannot be derived beside a ghost field.
impl Default for Prices {
    ghost is_default = { λ prices. (prices.fuel ≡ pos 0) × (prices.levy ≡ 0) × (prices.buy ≡ 0) };

    fn default() -> Prices {
        Prices {
            fuel: 0,
            levy: 0,
            buy: 0,
        }
    }
}
