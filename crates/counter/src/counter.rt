ghost use Rattle.std.specs.Prelude.{◌≡◌, Some, None, Ok, Err};
ghost use Rattle.slip.specs.Format.{opening};
ghost use Rattle.slip.specs.View.{opening_of, slip_of};
ghost use Rattle.counter.specs.Book.{an_account, order_ground, granted, outcome, turned};
ghost use Rattle.counter.specs.Law.{RunKept};
ghost use Rattle.counter.specs.View.{entry_of, by_tariff, account_entry, book_of};

use crate::fault::CounterFault;
use crate::open_account::OpenAccount;
use account::account::Account;
use account::terms::Terms;
use slip::slip::{Opening, Slip, SlipCall};
use tariff::discount::Discount;
use tariff::night::Night;
use tariff::plan::{ByTariff, Plan};
use tariff::seasonal::Seasonal;
use tariff::standard::Standard;
use tariff::supply::Supply;

/// An account that was opened here.
pub type Opened = ByTariff<
    Account<Discount<Standard>>,
    Account<Discount<Night>>,
    Account<Discount<Seasonal>>,
>;

/// The counter, with the account that is open there, once one is.
#[derive(Drop)]
pub struct Counter {
    account: Option<Opened>,
}

impl Counter {
    /// A counter where no account is open yet. Whatever slips are taken from here on, the account that they lead to
    /// keeps the law.
    pub fn new() -> Counter
        ensures book { book_of result ≡ None }
        ensures law { RunKept }
    {
        Counter { account: None }
    }

    /// Takes a slip: opens the account that an opening orders, or makes the call on the one that is open. Answers the
    /// call's yen: the net of a closing, the difference of a correction, otherwise 0.
    pub fn take(&mut self, slip: &Slip) -> Result<i64, CounterFault>
        ensures answer { result ≡ outcome (book_of self.old) (slip_of slip.now) }
        ensures book { book_of self.new ≡ turned (book_of self.old) (slip_of slip.now) }
    {
        match &mut self.account {
            Some(account) => call_any(account, slip),
            None => match slip {
                Slip::Open(order) => self.open(order),
                _ => Err(CounterFault::NotOpen),
            },
        }
    }

    // Opens the account that an opening orders, where none is open. It is a function of its own, since each call of a
    // function pays for the size of what it holds, and an account is large.
    fn open(&mut self, order: &Opening) -> Result<i64, CounterFault>
        requires { self.old.account ≡ None }
        ensures answer { result ≡ outcome (book_of self.old) (opening (opening_of order.now)) }
        ensures book { book_of self.new ≡ turned (book_of self.old) (opening (opening_of order.now)) }
    {
        let account = open_account(order)?;
        self.account = Some(account);
        Ok(0)
    }
}

// Opens the account that an opening orders.
fn open_account(order: &Opening) -> Result<Opened, CounterFault>
    ensures { elim result [ Ok a ↦ (order_ground (opening_of order.now) ≡ None) × (Some (account_entry a) ≡ granted None (an_account (opening_of order.now))) | Err fault ↦ order_ground (opening_of order.now) ≡ Some fault ] }
{
    let plan = Plan::new(order.tariff, order.capacity, order.percent)?;
    let terms = Terms {
        letter: char::from(order.letter),
        first: order.first,
        lengths: order.lengths,
    };
    // Each arm opens an account of another type.
    Ok(match plan {
        ByTariff::Standard(supply) => ByTariff::Standard(Account::open(supply, terms)?),
        ByTariff::Night(supply) => ByTariff::Night(Account::open(supply, terms)?),
        ByTariff::Seasonal(supply) => ByTariff::Seasonal(Account::open(supply, terms)?),
    })
}

/// Makes the call of a slip on whichever of three accounts is open.
pub fn call_any<A: Supply, B: Supply, C: Supply>(
    account: &mut ByTariff<Account<A>, Account<B>, Account<C>>,
    slip: &Slip,
) -> Result<i64, CounterFault>
    ensures answer { result ≡ outcome (Some (by_tariff (entry_of A.Supply.whole A.Tariff.tables) (entry_of B.Supply.whole B.Tariff.tables) (entry_of C.Supply.whole C.Tariff.tables) account.old)) (slip_of slip.now) }
    ensures book { Some (by_tariff (entry_of A.Supply.whole A.Tariff.tables) (entry_of B.Supply.whole B.Tariff.tables) (entry_of C.Supply.whole C.Tariff.tables) account.new) ≡ turned (Some (by_tariff (entry_of A.Supply.whole A.Tariff.tables) (entry_of B.Supply.whole B.Tariff.tables) (entry_of C.Supply.whole C.Tariff.tables) account.old)) (slip_of slip.now) }
{
    account.take(slip)
}

/// Makes the call of a slip on an open account, over whatever supply, and answers its yen as the counter does.
pub fn make_call<S: Supply>(account: &mut Account<S>, slip: &Slip) -> Result<i64, CounterFault>
    ensures answer { result ≡ outcome (Some (entry_of S.Supply.whole S.Tariff.tables account.old)) (slip_of slip.now) }
    ensures book { Some (entry_of S.Supply.whole S.Tariff.tables account.new) ≡ turned (Some (entry_of S.Supply.whole S.Tariff.tables account.old)) (slip_of slip.now) }
{
    match SlipCall::from(slip) {
        SlipCall::Open(_) => Err(CounterFault::AlreadyOpen),
        SlipCall::Post { day, figures } => {
            account.post(day, figures)?;
            Ok(0)
        }
        SlipCall::Correct { day, figures } => Ok(account.correct(day, figures)?),
        SlipCall::Strike { day } => {
            account.strike(day)?;
            Ok(0)
        }
        SlipCall::Close(prices) => Ok(account.close(prices)?.net),
    }
}
