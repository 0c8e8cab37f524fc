ghost use Rattle.std.specs.Prelude.{◌≡◌, Some};
ghost use Rattle.account.specs.Ledger.{Opening, Ledger};
ghost use Rattle.slip.specs.View.{slip_of};
ghost use Rattle.counter.specs.Book.{outcome, turned};
ghost use Rattle.counter.specs.View.{entry_of, by_tariff};

use crate::counter::make_call;
use crate::fault::CounterFault;
use account::account::Account;
use slip::slip::Slip;
use tariff::plan::ByTariff;
use tariff::supply::Supply;

/// An open account, over whatever supply, or one of three. It takes what `call_any` does not: a caller's own kind of
/// account, or one of three of those.
pub trait OpenAccount {
    ghost held: { Self → Opening × Ledger };

    /// Makes the call of a slip and answers its yen: the net of a closing, the difference of a correction, otherwise 0.
    fn take(&mut self, slip: &Slip) -> Result<i64, CounterFault>
        ensures answer { result ≡ outcome (Some (held self.old)) (slip_of slip.now) }
        ensures book { Some (held self.new) ≡ turned (Some (held self.old)) (slip_of slip.now) };
}

impl<S: Supply> OpenAccount for Account<S> {
    ghost held = { entry_of S.Supply.whole S.Tariff.tables };

    fn take(&mut self, slip: &Slip) -> Result<i64, CounterFault> {
        make_call(self, slip)
    }
}

impl<A: OpenAccount, B: OpenAccount, C: OpenAccount> OpenAccount for ByTariff<A, B, C> {
    ghost held = { by_tariff A.OpenAccount.held B.OpenAccount.held C.OpenAccount.held };

    fn take(&mut self, slip: &Slip) -> Result<i64, CounterFault> {
        // Each arm has an account of another type.
        match self {
            ByTariff::Standard(account) => account.take(slip),
            ByTariff::Night(account) => account.take(slip),
            ByTariff::Seasonal(account) => account.take(slip),
        }
    }
}
