ghost use Rattle.std.specs.Prelude.{◌≡◌, ◌<◌, ◌≤◌, true, length, IfSome, Some, None, MatchResult};
ghost use Rattle.std.specs.Option.{option_map};
ghost use Rattle.settlement.specs.Boxes.{box_lettered};
ghost use Rattle.settlement.specs.Limits.{net_within};
ghost use Rattle.settlement.specs.Prices.{prices_of};
ghost use Rattle.settlement.specs.Rows.{used_rows};
ghost use Rattle.settlement.specs.Settlements.{shown};
ghost use Rattle.settlement.specs.Handed.{figures_in};
ghost use Rattle.account.specs.Calls.{request_of, answer_reply};
ghost use Rattle.account.specs.History.{done, difference};
ghost use Rattle.account.specs.Ledger.{closed_days, month_numbers, closed_numbers, net_in, post, correct, strike, draft, close, show};
ghost use Rattle.account.specs.Openings.{terms_ground};
ghost use Rattle.account.specs.Replies.{reply_of, settlement_reply, OpenMonth, Opened, Keeps};
ghost use Rattle.account.specs.View.{lengths_of, ledger_of, opening_of};

use super::Account;
use crate::calendar::Calendar;
use crate::call::{Answer, Call};
use crate::day_table::DayTable;
use crate::entry::read_entry;
use crate::fault::AccountFault;
use crate::terms::Terms;
use arrayvec::ArrayVec;
use settlement::deposit_box::DepositBox;
use settlement::prices::{MonthPrices, Prices};
use settlement::reading::DayFigures;
use settlement::settlement::{Settlement, settle};
use settlement::totals::gather;
use tariff::refused::Refused;
use tariff::supply::Supply;

// The box and the calendar that are asked for.
fn box_and_calendar(terms: Terms) -> Result<(DepositBox, Calendar), AccountFault>
    ensures { MatchResult result (λ found. (box_lettered terms.entry.letter ≡ Some found.0) × (found.1.first ≡ terms.entry.first) × (lengths_of found.1 ≡ terms.entry.lengths.now) × (terms_ground terms.entry ≡ None)) (λ fault. terms_ground terms.entry ≡ Some fault) }
{
    let deposit_box = DepositBox::try_from(terms.letter)?;
    let calendar = Calendar::new(terms.first, terms.lengths)?;
    Ok((deposit_box, calendar))
}

impl<S: Supply> Account<S> {
    /// Opens an account over a supply.
    pub fn open(supply: S, terms: Terms) -> Result<Account<S>, Refused<S, AccountFault>>
        ensures { MatchResult result (λ a. Opened S.Supply.whole S.Tariff.tables supply terms.entry a) (λ e. (e.supply ≡ supply) × (terms_ground terms.entry ≡ Some e.fault)) }
    {
        // Either outcome takes the supply, so there are two arms, and no combinator. The account is made last: as an arm's
        // value it would be copied, and it is large.
        let (deposit_box, calendar) = match box_and_calendar(terms) {
            Ok(found) => found,
            Err(fault) => return Err(Refused { supply, fault }),
        };
        Ok(Account {
            supply,
            deposit_box,
            calendar,
            closed: ArrayVec::new(),
            table: DayTable::new(),
        })
    }

    // The number of days of the closed months.
    fn closed_days(&self) -> u16
        ensures { result ≡ closed_days (opening_of S.Supply.whole S.Tariff.tables self.now) (ledger_of self.now) }
    {
        self.calendar.start(self.closed.len())
    }

    // A month settled at given prices, where none of its days is missing.
    fn settled(&self, month: usize, prices: Prices) -> Option<Settlement>
        requires { month < self.now.calendar.months }
        ensures numbers { option_map shown result ≡ month_numbers (opening_of S.Supply.whole S.Tariff.tables self.now) (ledger_of self.now) month (prices_of prices) }
        ensures lines { IfSome result (λ s. s.credit_lines ≤ used_rows (shown s).credit.rows) }
    {
        let days = self.calendar.days_of(month);
        let first = self.calendar.day_number(days.start);
        let totals = gather(&self.supply, first, self.table.part(days))?;
        settle(&self.supply, self.deposit_box, prices, &totals)
    }

    // The net of a closed month as it now stands.
    fn net_of(&self, month: usize) -> i64
        requires { month < length self.now.closed.items }
        ensures value { result ≡ net_in (closed_numbers (opening_of S.Supply.whole S.Tariff.tables self.now) (ledger_of self.now) month) }
        ensures bound { net_within result ≡ true }
    {
        self.settled(month, self.closed[month])
            .map_or(0, |settlement| settlement.net)
    }

    // The open month settled at given prices, with these prices as the account keeps them.
    fn open_month(&self, prices: MonthPrices) -> Result<(Prices, Settlement), AccountFault>
        ensures { OpenMonth (opening_of S.Supply.whole S.Tariff.tables self.now) (ledger_of self.now) prices result }
    {
        let month = self.closed.len();
        if month >= self.calendar.months() {
            return Err(AccountFault::AllClosed);
        }
        let prices = Prices::try_from(prices)?;
        let days = self.calendar.days_of(month);
        if let Some(day) = self.table.first_missing(days) {
            return Err(AccountFault::Missing { day });
        }
        let settlement = self.settled(month, prices).unwrap();
        Ok((prices, settlement))
    }

    /// Enters a day's reading.
    pub fn post(&mut self, day: u16, figures: DayFigures<&[u16]>) -> Result<(), AccountFault>
        ensures { Keeps S.Supply.whole S.Tariff.tables self.old self.new (post day (figures_in figures.entry)) (reply_of (λ nothing. done) result) }
    {
        let reading = read_entry(&self.calendar, day, figures)?;
        if self.table.has(day) {
            return Err(AccountFault::Posted { day });
        }
        self.table.put(day, Some(reading));
        Ok(())
    }

    /// Empties a day of an open month.
    pub fn strike(&mut self, day: u16) -> Result<(), AccountFault>
        ensures { Keeps S.Supply.whole S.Tariff.tables self.old self.new (strike day) (reply_of (λ nothing. done) result) }
    {
        if day >= self.calendar.days() {
            return Err(AccountFault::Beyond { day });
        }
        if !self.table.has(day) {
            return Err(AccountFault::NotPosted { day });
        }
        if day < self.closed_days() {
            return Err(AccountFault::Closed { day });
        }
        self.table.put(day, None);
        Ok(())
    }

    /// Replaces a day's reading whole. In a closed month it answers the new net less the net before, otherwise 0.
    pub fn correct(&mut self, day: u16, figures: DayFigures<&[u16]>) -> Result<i64, AccountFault>
        ensures { Keeps S.Supply.whole S.Tariff.tables self.old self.new (correct day (figures_in figures.entry)) (reply_of difference result) }
    {
        let reading = read_entry(&self.calendar, day, figures)?;
        if !self.table.has(day) {
            return Err(AccountFault::NotPosted { day });
        }
        if day >= self.closed_days() {
            self.table.put(day, Some(reading));
            return Ok(0);
        }
        let month = self.calendar.month_of(day);
        let before = self.net_of(month);
        self.table.put(day, Some(reading));
        let after = self.net_of(month);
        Ok(after - before)
    }

    /// The open month's settlement at given prices.
    pub fn draft(&self, prices: MonthPrices) -> Result<Settlement, AccountFault>
        ensures { Keeps S.Supply.whole S.Tariff.tables self.now self.now (draft prices) (reply_of settlement_reply result) }
    {
        let (_, settlement) = self.open_month(prices)?;
        Ok(settlement)
    }

    /// Closes the open month at given prices, henceforth its own, and answers its settlement.
    pub fn close(&mut self, prices: MonthPrices) -> Result<Settlement, AccountFault>
        ensures { Keeps S.Supply.whole S.Tariff.tables self.old self.new (close prices) (reply_of settlement_reply result) }
    {
        let (prices, settlement) = self.open_month(prices)?;
        self.closed.push(prices);
        Ok(settlement)
    }

    /// A closed month's settlement as it now stands; months count from 0.
    pub fn show(&self, month: u8) -> Result<Settlement, AccountFault>
        ensures { Keeps S.Supply.whole S.Tariff.tables self.now self.now (show month) (reply_of settlement_reply result) }
    {
        let month = usize::from(month);
        let prices = self
            .closed
            .get(month)
            .copied()
            .ok_or(AccountFault::NotClosed)?;
        Ok(self.settled(month, prices).unwrap())
    }

    /// Makes any call.
    pub fn apply(&mut self, call: &Call) -> Result<Answer, AccountFault>
        ensures { Keeps S.Supply.whole S.Tariff.tables self.old self.new (request_of call.now) (reply_of answer_reply result) }
    {
        match *call {
            Call::Post { day, figures } => self.post(day, figures).map(|()| Answer::Done),
            Call::Correct { day, figures } => self.correct(day, figures).map(Answer::Difference),
            Call::Strike { day } => self.strike(day).map(|()| Answer::Done),
            Call::Draft(prices) => self.draft(prices).map(Answer::Settled),
            Call::Show { month } => self.show(month).map(Answer::Settled),
            Call::Close(prices) => self.close(prices).map(Answer::Settled),
        }
    }
}
