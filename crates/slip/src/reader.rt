ghost use Rattle.std.specs.Prelude.{◌≡◌, ◌+◌, ◌*◌, ◌<◌, ◌≤◌, ◌^◌, ℕ, Bool, false, List, length, IfOk, slice_index_or};
ghost use Rattle.std.specs.List.{All};
ghost use Rattle.slip.specs.Exact.{One, Exact};
ghost use Rattle.slip.specs.Format.{Slip as Meant, opening as opens, close as closes};
ghost use Rattle.slip.specs.Reading.{all_bits, number, figure, figures, entry, prices, opened, read, reads_as};
ghost use Rattle.slip.specs.View.{opening_of, slip_of};
ghost use Rattle.slip.specs.Answers.{seen, slip_read, Reads, entered};
ghost use Rattle.slip.specs.declared.fault.SlipFault.TheVariants.{Short as Ends};

use crate::fault::SlipFault;
use crate::slip::{Opening, Order, Slip};
use settlement::prices::MonthPrices;
use settlement::reading::DayFigures;

/// A slip, and the bytes behind it.
#[derive(Clone, Copy)]
pub struct Read<'a> {
    pub slip: Slip<'a>,
    pub rest: &'a [u8],
}

/// Reads a slip off a caller's bytes.
#[derive(Clone, Copy)]
pub struct Reader<'a> {
    pub text: &'a [u8],
}

impl<'a> Reader<'a> {
    /// The slip at the front of the bytes, with the bytes behind it. The earliest faulty byte decides a refusal.
    #[tactic(auto, using(crate::proofs::Exactness::exact))]
    pub fn read_slip(&self) -> Result<Read<'a>, SlipFault>
        ensures answer { seen slip_read result ≡ reads_as self.now.text.now }
        ensures exact { Exact self.now.text.now }
    {
        let mut cursor = Cursor::new(self.text);
        let slip = cursor.slip()?;
        Ok(Read {
            slip,
            rest: cursor.rest,
        })
    }
}

// The bytes that are still to be read, and the place of the first of them.
#[derive(Clone, Copy)]
struct Cursor<'a> {
    place: u16,
    rest: &'a [u8],
}

// Each part takes its head fields off by a slice pattern. A slip's parts begin at known places up to its figures, and each
// says at which.
impl<'a> Cursor<'a> {
    // At the front of a slip.
    fn new(text: &'a [u8]) -> Cursor<'a>
        ensures front { result.place ≡ 0 }
        ensures text { result.rest.now ≡ text.now }
        ensures bytes { All One text.now }
    {
        Cursor {
            place: 0,
            rest: text,
        }
    }

    fn slip(&mut self) -> Result<Slip<'a>, SlipFault>
        requires { self.old.place ≡ 0 }
        ensures { Reads slip_of result self.new (read self.old.rest.now) }
    {
        let [letter, rest @ ..] = self.rest else {
            return Err(SlipFault::Empty);
        };
        *self = Cursor { place: 1, rest };
        match char::from(*letter) {
            'O' => Ok(Order::Open(self.opening()?)),
            'P' => {
                let (day, figures) = self.entry()?;
                Ok(Order::Post { day, figures })
            }
            'C' => {
                let (day, figures) = self.entry()?;
                Ok(Order::Correct { day, figures })
            }
            'S' => Ok(Order::Strike {
                day: self.number()?,
            }),
            'M' => Ok(Order::Close(self.prices()?)),
            _ => Err(SlipFault::Letter),
        }
    }

    // An opening, behind its letter.
    fn opening(&mut self) -> Result<Opening<'a>, SlipFault>
        requires { self.old.place ≡ 1 }
        ensures { Reads (λ o. opens (opening_of o)) result self.new (opened self.old.rest.now) }
    {
        let [
            tariff,
            capacity,
            percent,
            letter,
            high,
            low,
            months,
            rest @ ..,
        ] = self.rest
        else {
            return Err(self.short());
        };
        let count = usize::from(*months);
        if count < 1 || count > 12 {
            return Err(SlipFault::Months { place: 7 });
        }
        *self = Cursor { place: 8, rest };
        if rest.len() < count {
            return Err(self.short());
        }
        let (lengths, rest) = rest.split_at(count);
        *self = Cursor {
            place: 8 + u16::from(*months),
            rest,
        };
        Ok(Opening {
            tariff: *tariff,
            capacity: *capacity,
            percent: *percent,
            letter: *letter,
            first: u16::from_be_bytes([*high, *low]),
            lengths,
        })
    }

    // A posting or a correction, behind its letter.
    fn entry(&mut self) -> Result<(u16, DayFigures<[u16; 48]>), SlipFault>
        requires { self.old.place ≡ 1 }
        ensures { (kind : ℕ → Bool → List ℕ → List ℕ → Meant) → Reads (entered kind) result self.new (entry kind self.old.rest.now) }
    {
        let [high, low, mark, rest @ ..] = self.rest else {
            return Err(self.short());
        };
        if *mark > 1 {
            return Err(SlipFault::Rest { place: 3 });
        }
        *self = Cursor { place: 4, rest };
        let day = u16::from_be_bytes([*high, *low]);
        let figures = DayFigures {
            rest: *mark == 1,
            used: self.figures()?,
            surplus: self.figures()?,
        };
        Ok((day, figures))
    }

    // A closing's prices, behind its letter.
    fn prices(&mut self) -> Result<MonthPrices, SlipFault>
        requires { self.old.place ≡ 1 }
        ensures { Reads closes result self.new (prices self.old.rest.now) }
    {
        let [map, rest @ ..] = self.rest else {
            return Err(self.short());
        };
        if *map % 32 != 0 {
            return Err(SlipFault::Map { place: 1 });
        }
        *self = Cursor { place: 2, rest };
        let map = [*map];
        Ok(MonthPrices {
            fuel: self.figure(stands(&map, 0))?.cast_signed(),
            levy: self.figure(stands(&map, 1))?,
            buy: self.figure(stands(&map, 2))?,
        })
    }

    // 48 figures behind their map.
    fn figures(&mut self) -> Result<[u16; 48], SlipFault>
        requires { self.old.place ≤ 500 }
        ensures answer { Reads (λ ns. ns) result self.new (figures self.old.place self.old.rest.now) }
        ensures near { IfOk result (λ _. self.new.place ≤ self.old.place + 102) }
    {
        let [a, b, c, d, e, f, rest @ ..] = self.rest else {
            return Err(self.short());
        };
        let map = [*a, *b, *c, *d, *e, *f];
        *self = Cursor {
            place: self.place + 6,
            rest,
        };
        let mut figures = [0; 48];
        for (half_hour, figure) in figures.iter_mut().enumerate() {
            *figure = self.figure(stands(&map, half_hour))?;
        }
        Ok(figures)
    }

    // A figure or a price: it is there if its bit stands, and then is not 0.
    fn figure(&mut self, stands: bool) -> Result<u16, SlipFault>
        requires { self.old.place ≤ 1000 }
        ensures answer { Reads (λ n. n) result self.new (figure stands self.old.place self.old.rest.now) }
        ensures near { IfOk result (λ _. self.new.place ≤ self.old.place + 2) }
    {
        if !stands {
            return Ok(0);
        }
        let place = self.place;
        match self.number()? {
            0 => Err(SlipFault::Zero { place }),
            figure => Ok(figure),
        }
    }

    fn number(&mut self) -> Result<u16, SlipFault>
        requires { self.old.place ≤ 1000 }
        ensures answer { Reads (λ n. n) result self.new (number self.old.place self.old.rest.now) }
        ensures near { IfOk result (λ _. self.new.place ≡ self.old.place + 2) }
    {
        let [high, low, rest @ ..] = self.rest else {
            return Err(self.short());
        };
        *self = Cursor {
            place: self.place + 2,
            rest,
        };
        Ok(u16::from_be_bytes([*high, *low]))
    }

    // The bytes end inside the slip.
    fn short(&self) -> SlipFault
        requires { self.now.place + length self.now.rest.now < 2 ^ 16 }
        ensures { result ≡ Ends (self.now.place + length self.now.rest.now) }
    {
        SlipFault::Short {
            bytes: self.place + self.rest.len() as u16,
        }
    }
}

// Whether a bit stands in a map.
fn stands(map: &[u8], bit: usize) -> bool
    requires { bit < 8 * length map.now }
    ensures { result ≡ slice_index_or (all_bits map.now) bit false }
{
    map[bit / 8] >> (7 - bit % 8) & 1 == 1
}
