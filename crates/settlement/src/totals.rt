mod methods;

ghost use Rattle.std.specs.Prelude.{◌≡◌, ◌*◌, ◌≤◌, length, take, sum};

pub use methods::gather;

/// A month's totals in hundredths of a kWh: energy used, in all and in each class of a tariff, and surplus. The type
/// keeps that the classes add up, and the bounds of at most 35 days of 48 half-hours of 2,500.
#[derive(Clone, Copy)]
pub struct Totals {
    pub days: u8,
    pub classes: u8,
    pub used: u32,
    // As long as the most classes that a tariff has: totals are `Copy` and take no allocator.
    pub by_class: [u32; 4],
    pub surplus: u32,
    ghost month: { days ≤ 35 },
    ghost wide: { length by_class ≡ 4 },
    ghost few: { (1 ≤ classes) × (classes ≤ 4) },
    ghost added: { sum (take classes by_class) ≡ used },
    ghost used_bound: { used ≤ 120000 * days },
    ghost surplus_bound: { surplus ≤ 120000 * days },
}
