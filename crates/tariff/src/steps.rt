mod methods;

ghost use Rattle.std.specs.Prelude.{◌≡◌, ◌≤◌, true, take};
ghost use Rattle.tariff.specs.Steps.{rising};

/// A step of a class: its end in kWh (none for the last step) and its price in sen.
pub type Step = (Option<u32>, u32);

/// The steps of a class, 1 to 4. Its type keeps their rule: ends of 1 to 99,999 kWh that rise strictly, only the last
/// step without one, and prices of at most 20,000 sen.
// An array with its count: tables and tariffs are `Copy`, and the library's vectors are not.
#[derive(Clone, Copy)]
pub struct StepTable {
    count: u8,
    steps: [Step; 4],
    ghost few: { count ≤ 4 },
    ghost right: { rising 0 (take count steps) ≡ true },
}
