ghost use Rattle.std.specs.Prelude.{◌≡◌, ◌+◌, ◌≤◌, ◌∷◌, length, OnOk, count_by, not, ◌==◌};
ghost use Rattle.line.specs.Lines.{HasRoom, Wrote};
ghost use Rattle.slip.specs.Exact.{FortyEight, EntryFits, OpeningFits, PricesFit};
ghost use Rattle.slip.specs.Format.{opening as opens, post as posted, strike as strikes, close as closes, two_bytes, map_byte, map_bytes, standing_bytes, packed, entry_bytes};
ghost use Rattle.settlement.specs.Handed.{figures_in};
ghost use Rattle.slip.specs.View.{opening_of, called};
ghost use Rattle.slip.specs.Writing.{writing_ground, Put, Written, ReadsBack};

use crate::fault::WritingFault;
use crate::slip::{Opening, Order, SlipCall};
use line::pen::Pen;
use settlement::prices::MonthPrices;
use settlement::reading::DayFigures;

impl<'a> SlipCall<'a> {
    /// Writes the call as its slip at the front of `out`, and answers the count of its bytes. A buffer into which
    /// nothing is written is left as it was.
    pub fn write(&self, out: &mut [u8]) -> Result<usize, WritingFault>
        ensures written { Written (called self.now) out.old out.new result }
        ensures reads_back { ReadsBack (called self.now) result }
    {
        match self {
            Order::Open(opening) => write_opening(out, opening),
            Order::Post { day, figures } => write_entry(out, b'P', *day, figures),
            Order::Correct { day, figures } => write_entry(out, b'C', *day, figures),
            Order::Strike { day } => write_strike(out, *day),
            Order::Close(prices) => write_closing(out, prices),
        }
    }
}

fn write_opening(out: &mut [u8], opening: &Opening) -> Result<usize, WritingFault>
    ensures written { Written (opens (opening_of opening.now)) out.old out.new result }
    ensures fits { OnOk result (OpeningFits (opening_of opening.now)) }
{
    let months = opening.lengths.len();
    if months < 1 || months > 12 {
        return Err(WritingFault::Months);
    }
    if out.len() < 8 + months {
        return Err(WritingFault::Buffer);
    }
    let mut pen = Pen::new(out);
    pen.put(&[
        b'O',
        opening.tariff,
        opening.capacity,
        opening.percent,
        opening.letter,
    ]);
    put_number(&mut pen, opening.first);
    pen.put(&[months as u8]);
    pen.put(opening.lengths);
    Ok(pen.at)
}

// A posting or a correction, by its letter.
fn write_entry(
    out: &mut [u8],
    letter: u8,
    day: u16,
    figures: &DayFigures<&[u16]>,
) -> Result<usize, WritingFault>
    ensures put { Put (writing_ground (posted day (figures_in figures.now)) (length out.old)) (letter ∷ entry_bytes day (figures_in figures.now)) out.old out.new result }
    ensures fits { OnOk result (EntryFits day (figures_in figures.now)) }
{
    let DayFigures {
        rest,
        used,
        surplus,
    } = *figures;
    if used.len() != 48 || surplus.len() != 48 {
        return Err(WritingFault::Figures);
    }
    if out.len() < 16 + 2 * count_standing(used) + 2 * count_standing(surplus) {
        return Err(WritingFault::Buffer);
    }
    let mut pen = Pen::new(out);
    pen.put(&[letter]);
    put_number(&mut pen, day);
    pen.put(&[u8::from(rest)]);
    put_figures(&mut pen, used);
    put_figures(&mut pen, surplus);
    Ok(pen.at)
}

fn write_strike(out: &mut [u8], day: u16) -> Result<usize, WritingFault>
    ensures { Written (strikes day) out.old out.new result }
{
    if out.len() < 3 {
        return Err(WritingFault::Buffer);
    }
    let mut pen = Pen::new(out);
    pen.put(b"S");
    put_number(&mut pen, day);
    Ok(pen.at)
}

fn write_closing(out: &mut [u8], prices: &MonthPrices) -> Result<usize, WritingFault>
    ensures written { Written (closes prices.now) out.old out.new result }
    ensures fits { PricesFit prices.now }
{
    let figures = [prices.fuel.cast_unsigned(), prices.levy, prices.buy];
    if out.len() < 2 + 2 * count_standing(&figures) {
        return Err(WritingFault::Buffer);
    }
    let mut pen = Pen::new(out);
    pen.put(&[b'M', map_byte(&figures)]);
    put_standing(&mut pen, &figures);
    Ok(pen.at)
}

// How many figures are not 0.
fn count_standing(figures: &[u16]) -> usize
    ensures count { result ≡ count_by (λ n. not (n == 0)) figures.now }
    ensures bound { result ≤ length figures.now }
{
    figures.iter().filter(|figure| **figure != 0).count()
}

// The map's byte of up to eight figures: the first has the top bit. A chain's `sum` asks beforehand for the bound that
// this loop keeps bit by bit.
fn map_byte(figures: &[u16]) -> u8
    ensures { result ≡ map_byte 128 figures.now }
{
    let mut byte = 0;
    let mut bit = 128;
    for figure in figures {
        if *figure != 0 {
            byte += bit;
        }
        bit /= 2;
    }
    byte
}

// A number in two bytes, the high one first.
fn put_number(pen: &mut Pen, n: u16)
    requires { HasRoom pen.old (two_bytes n) }
    ensures { Wrote pen.old (two_bytes n) pen.new }
{
    pen.put(&n.to_be_bytes());
}

fn put_standing(pen: &mut Pen, figures: &[u16])
    requires { HasRoom pen.old (standing_bytes figures.now) }
    ensures { Wrote pen.old (standing_bytes figures.now) pen.new }
{
    for figure in figures {
        if *figure != 0 {
            put_number(pen, *figure);
        }
    }
}

fn put_map(pen: &mut Pen, figures: &[u16])
    requires whole { length figures.now ≡ 48 }
    requires room { HasRoom pen.old (map_bytes 6 figures.now) }
    ensures { Wrote pen.old (map_bytes 6 figures.now) pen.new }
{
    let (eights, _) = figures.as_chunks::<8>();
    for eight in eights {
        pen.put(&[map_byte(eight)]);
    }
}

fn put_figures(pen: &mut Pen, figures: &[u16])
    requires whole { length figures.now ≡ 48 }
    requires room { HasRoom pen.old (packed 6 figures.now) }
    ensures wrote { Wrote pen.old (packed 6 figures.now) pen.new }
    ensures fits { FortyEight figures.now }
{
    put_map(pen, figures);
    put_standing(pen, figures);
}
