mod methods;

ghost use Rattle.std.specs.Prelude.{◌≤◌};

/// A percent of every price of the supply below, half-up to a sen; its classes, basic charge and minimum stay.
/// Discounts pile: a discount is a supply again.
#[derive(Drop)]
pub struct Discount<S> {
    supply: S,
    percent: u8,
    ghost part: { (1 ≤ percent) × (percent ≤ 100) },
}
