ghost use Rattle.std.specs.Prelude.{◌≡◌, Some, sum, Option};
ghost use Rattle.settlement.specs.Handed.{figures_in};
ghost use Rattle.account.specs.Ledger.{figures_ground};
ghost use Rattle.account.specs.Replies.{Entered};
ghost use Rattle.account.specs.View.{lengths_of};

use crate::calendar::Calendar;
use crate::fault::AccountFault;
use settlement::reading::{DayFigures, Reading, ReadingFault};

// The reading that is handed in for a day, where the calendar has that day and the figures make one.
pub(crate) fn read_entry(
    calendar: &Calendar,
    day: u16,
    figures: DayFigures<&[u16]>,
) -> Result<Reading, AccountFault>
    ensures { Entered (sum (lengths_of calendar.now)) day (figures_in figures.entry) result }
{
    if day >= calendar.days() {
        return Err(AccountFault::Beyond { day });
    }
    Reading::try_from(figures).map_err(|fault| refusal(fault, day))
}

// The account's refusal of figures that make no reading, which a conversion could not give: it names the day.
fn refusal(fault: ReadingFault, day: u16) -> AccountFault
    ensures { (others : Option AccountFault) → figures_ground day (Some fault) others ≡ Some result }
{
    match fault {
        ReadingFault::Length => AccountFault::Figures,
        ReadingFault::Figure => AccountFault::Figure { day },
    }
}
