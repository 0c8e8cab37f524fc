mod methods;

ghost use Rattle.std.specs.Prelude.{◌≡◌, true};
ghost use Rattle.settlement.specs.Limits.{prices_within};

/// A month's prices in sen per kWh, as handed in: the fuel price, the levy and the price at which surplus is bought.
#[derive(Clone, Copy)]
pub struct MonthPrices {
    pub fuel: i16,
    pub levy: u16,
    pub buy: u16,
}

/// A month's prices that keep their limits: the fuel price −10,000 to 10,000, the levy and the price at which surplus is
/// bought 0 to 10,000.
// A type beside `MonthPrices`: an account is handed prices that nothing has checked yet, and says so when it refuses them.
#[derive(Clone, Copy)]
pub struct Prices {
    pub fuel: i16,
    pub levy: u16,
    pub buy: u16,
    ghost limits: { prices_within fuel levy buy ≡ true },
}
