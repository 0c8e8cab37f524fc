ghost use Rattle.std.specs.Prelude.{◌≡◌, ◌+◌, ◌-◌, min};

/// A month's surplus in kWh, split into what is deposited and what is bought. The type keeps that the two add up to it.
#[derive(Clone, Copy)]
pub struct Split {
    pub surplus: u32,
    pub deposited: u32,
    pub bought: u32,
    ghost whole: { deposited + bought ≡ surplus },
}

impl Split {
    /// Deposits as much of the surplus as `room` allows.
    pub fn new(surplus: u32, room: u32) -> Split
        ensures { (result.surplus ≡ surplus) × (result.deposited ≡ min surplus room) × (result.bought ≡ surplus - min surplus room) }
    {
        let deposited = surplus.min(room);
        Split {
            surplus,
            deposited,
            bought: surplus - deposited,
        }
    }
}
