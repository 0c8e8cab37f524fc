ghost use Rattle.std.specs.Prelude.{◌≡◌};
ghost use Rattle.settlement.specs.Boxes.{BoxLettered, limit, fee};

use crate::fault::MonthFault;

/// The box that deposited energy is kept in, by its letter.
#[derive(Clone, Copy, PartialEq, Eq, Debug)]
pub enum DepositBox {
    S,
    M,
    L,
    T,
    R,
}

impl TryFrom<char> for DepositBox {
    type Error = MonthFault;

    ghost try_from_gives = { BoxLettered };

    fn try_from(letter: char) -> Result<DepositBox, MonthFault> {
        match letter {
            'S' => Ok(DepositBox::S),
            'M' => Ok(DepositBox::M),
            'L' => Ok(DepositBox::L),
            'T' => Ok(DepositBox::T),
            'R' => Ok(DepositBox::R),
            _ => Err(MonthFault::UnknownBox),
        }
    }
}

impl DepositBox {
    /// How many kWh the box holds; none where there is no limit.
    pub fn capacity(self) -> Option<u32>
        ensures { result ≡ limit self }
    {
        match self {
            DepositBox::S => Some(50),
            DepositBox::M => Some(150),
            DepositBox::L => None,
            DepositBox::T => Some(300),
            DepositBox::R => Some(100),
        }
    }

    /// The month's fee in yen, by the month's surplus in kWh.
    pub fn monthly_fee(self, surplus: u32) -> u32
        ensures { result ≡ fee self surplus }
    {
        match self {
            DepositBox::S => 800,
            DepositBox::M => 2_350,
            DepositBox::L => 5_000,
            DepositBox::T => { if surplus == 0 { 2_490 } else { 4_980 } }
            DepositBox::R => { if surplus == 0 { 1_250 } else { 2_500 } }
        }
    }
}
