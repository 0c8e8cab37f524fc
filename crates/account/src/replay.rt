ghost use Rattle.std.specs.Prelude.{◌≡◌, IfOk};
ghost use Rattle.account.specs.Runs.{Ran, ReplayAnswer};
ghost use Rattle.account.specs.declared.replay.ReplayFault.TheVariants.{Refused as WasRefused, OutOfMemory};

use crate::account::Account;
use crate::call::{Answer, Call};
use crate::fault::AccountFault;
use crate::terms::Terms;
use std::alloc::{AllocError, Global};
use tariff::refused::Refused;
use tariff::supply::Supply;

/// An account after a list of calls, with the answer of each.
#[derive(Drop)]
pub struct Replayed<S> {
    pub account: Account<S>,
    pub answers: Vec<Result<Answer, AccountFault>>,
}

/// Why a list of calls was not replayed.
#[derive(Clone, Copy, PartialEq, Eq, Debug)]
pub enum ReplayFault {
    /// The opening was refused.
    Refused(AccountFault),
    /// There was not memory enough for the answers.
    OutOfMemory,
}

impl<S: Drop> From<Refused<S, AccountFault>> for ReplayFault {
    ghost from_gives = { λ refused fault. fault ≡ WasRefused refused.fault };

    fn from(refused: Refused<S, AccountFault>) -> ReplayFault {
        ReplayFault::Refused(refused.fault)
    }
}

impl From<AllocError> for ReplayFault {
    ghost from_gives = { λ _ fault. fault ≡ OutOfMemory };

    fn from(_error: AllocError) -> ReplayFault {
        ReplayFault::OutOfMemory
    }
}

// Makes the calls in order.
fn run<S: Supply>(
    alloc: Global,
    account: &mut Account<S>,
    calls: &[Call],
) -> Result<Vec<Result<Answer, AccountFault>>, AllocError>
    ensures { IfOk result (λ answers. Ran S.Supply.whole S.Tariff.tables account.old account.new calls.now answers.items) }
{
    // A call changes the account, and of a closure that does no clause knows what it answered: so this is a loop.
    let mut answers = Vec::new(alloc);
    for call in calls {
        answers.push(account.apply(call))?;
    }
    Ok(answers)
}

/// Opens an account and makes a list of calls in order.
pub fn replay<S: Supply + Drop>(
    alloc: Global,
    supply: S,
    terms: Terms,
    calls: &[Call],
) -> Result<Replayed<S>, ReplayFault>
    ensures { ReplayAnswer S.Supply.whole S.Tariff.tables supply terms.entry calls.now result }
{
    let mut account = Account::open(supply, terms)?;
    let answers = run(alloc, &mut account, calls)?;
    Ok(Replayed { account, answers })
}
