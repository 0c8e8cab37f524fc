// A hotel's July and first days of August: posted, drafted, closed, corrected twice after closing, shown again, with the
// sum charged so far. Each call is printed with its answer.
#![tactic(auto)]

ghost use Rattle.std.specs.Prelude.{◌≡◌};
ghost use Rattle.story.specs.Charges.{charge_of};

use account::account::Account;
use account::call::{Answer, Call};
use account::fault::AccountFault;
use account::terms::Terms;
use anyhow::anyhow;
use settlement::prices::MonthPrices;
use settlement::reading::DayFigures;
use std::fmt;
use std::ops::Range;
use tariff::discount::Discount;
use tariff::night::Night;
use tariff::refusal::Refusal;
use tariff::supply::Supply;

const JULY: u16 = 9_678; // 1 July 2026

const PRICES: MonthPrices = MonthPrices {
    fuel: -120,
    levy: 349,
    buy: 850,
};

// Used hundredths of a kWh: breakfast, dinner and the air conditioning of a warm day.
fn used_on(day: u16) -> [u16; 48] {
    let mut used = [45; 48];
    used[12..20].fill(160);
    used[34..44].fill(190 + day % 7 * 10);
    used
}

// Surplus hundredths: the roof feeds in around noon.
fn surplus_on(day: u16) -> [u16; 48] {
    let mut surplus = [0; 48];
    surplus[20..30].fill(80 + day % 5 * 15);
    surplus
}

// What an answer adds to the sum charged: the net of a closing, the difference of a correction.
fn charge(call: &Call, answer: &Result<Answer, AccountFault>) -> i64
    ensures { result ≡ charge_of call.now answer.now }
{
    match (call, answer) {
        (Call::Close(_), Ok(Answer::Settled(settlement))) => settlement.net,
        (Call::Correct { .. }, Ok(Answer::Difference(yen))) => *yen,
        _ => 0,
    }
}

// A call, as the story tells it.
#[derive(Drop)]
struct Made<'a>(&'a Call<'a>);

impl fmt::Display for Made<'_> {
    fn fmt<W: fmt::Write>(&self, f: &mut fmt::Formatter<W>) -> fmt::Result {
        match *self.0 {
            Call::Post { day, .. } => write!(f, "post day {day}"),
            Call::Correct { day, .. } => write!(f, "correct day {day}"),
            Call::Strike { day } => write!(f, "strike day {day}"),
            Call::Draft(MonthPrices { fuel, levy, buy }) => write!(
                f,
                "draft at fuel {fuel}, levy {levy}, buy {buy}"
            ),
            Call::Show { month } => write!(f, "show month {month}"),
            Call::Close(MonthPrices { fuel, levy, buy }) => write!(
                f,
                "close at fuel {fuel}, levy {levy}, buy {buy}"
            ),
        }
    }
}

// An answer, as the story tells it.
#[derive(Drop)]
struct Told<'a>(&'a Result<Answer, AccountFault>);

impl fmt::Display for Told<'_> {
    fn fmt<W: fmt::Write>(&self, f: &mut fmt::Formatter<W>) -> fmt::Result {
        match *self.0 {
            Err(fault) => {
                let Refusal { number, place } = fault.into();
                write!(f, "refused {number} at {place}")
            }
            Ok(Answer::Done) => write!(f, "done"),
            Ok(Answer::Difference(yen)) => write!(f, "difference {yen} yen"),
            Ok(Answer::Settled(month)) => write!(
                f,
                "{} kWh used, {} deposited, {} bought, net {} yen",
                month.usage, month.split.deposited, month.split.bought, month.net
            ),
        }
    }
}

// A customer's story: the account, and the sum charged so far.
#[derive(Drop)]
struct Story<S> {
    account: Account<S>,
    charged: i64,
}

impl<S: Supply> Story<S> {
    // Makes a call, and prints it with its answer.
    fn make(&mut self, rt: &impl Print, call: &Call) -> anyhow::Result<()> {
        let answer = self.account.apply(call);
        println!(rt; "{}: {}", Made(call), Told(&answer))?;
        self.charged = self.charged.saturating_add(charge(call, &answer));
        Ok(())
    }

    // Posts a run of days.
    fn post_days(&mut self, rt: &impl Print, days: Range<u16>) -> anyhow::Result<()> {
        for day in days {
            let figures = DayFigures {
                rest: false,
                used: &used_on(day)[..],
                surplus: &surplus_on(day)[..],
            };
            self.make(rt, &Call::Post { day, figures })?;
        }
        Ok(())
    }

    // Corrects a day to the same use in every half-hour.
    fn correct_day(&mut self, rt: &impl Print, day: u16, hundredths: u16) -> anyhow::Result<()> {
        let figures = DayFigures {
            rest: false,
            used: &[hundredths; 48][..],
            surplus: &surplus_on(day)[..],
        };
        self.make(rt, &Call::Correct { day, figures })
    }

    fn tell(&mut self, rt: &impl Print) -> anyhow::Result<()> {
        self.post_days(rt, 0..30)?;
        self.make(rt, &Call::Close(PRICES))?;
        self.post_days(rt, 30..33)?;
        self.make(rt, &Call::Draft(PRICES))?;
        self.make(rt, &Call::Close(PRICES))?;
        self.correct_day(rt, 3, 120)?;
        self.correct_day(rt, 3, 50)?;
        self.make(rt, &Call::Strike { day: 3 })?;
        self.make(rt, &Call::Show { month: 0 })?;
        println!(rt; "charged so far: {} yen", self.charged)?;
        Ok(())
    }
}

fn main(rt: HostRuntime) -> anyhow::Result<()> {
    let night = Night::new(20).map_err(|_| anyhow!("the tariff was refused"))?;
    let supply = Discount::new(night, 95).map_err(|_| anyhow!("the discount was refused"))?;
    let terms = Terms {
        letter: 'T',
        first: JULY,
        lengths: &[31, 31],
    };
    let account = Account::open(supply, terms).map_err(|_| anyhow!("the account was refused"))?;
    let mut story = Story {
        account,
        charged: 0,
    };
    story.tell(&rt)
}
