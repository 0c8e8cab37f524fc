// The words of the command line that are no number.
ghost use Rattle.std.specs.Prelude.{◌≡◌, Some, None, MatchResult};
ghost use Rattle.bill.specs.Words.{box_named};

use settlement::deposit_box::DepositBox;
use settlement::fault::MonthFault;

// The deposit box of a word that is its letter.
pub fn lettered(word: &str) -> Result<DepositBox, MonthFault>
    ensures { MatchResult result (λ b. box_named word.now ≡ Some b) (λ f. (f ≡ MonthFault.UnknownBox) × (box_named word.now ≡ None)) }
{
    match word.as_bytes() {
        [letter] => DepositBox::try_from(char::from(*letter)),
        _ => Err(MonthFault::UnknownBox),
    }
}
