// fuel AREA A B C: the month's fuel price of an area, 1 Tokyo, 2 Chubu or 3 Kansai, from the three fuel inputs in whole yen.
#![tactic(auto)]

ghost use Rattle.std.specs.Prelude.{◌≡◌, map, IfOk, string_bytes};
ghost use Rattle.tariff.specs.Fuel.{area_name};
ghost use Rattle.fuel.specs.Words.{inputs_line, price_line, Priced};

use anyhow::bail;
use program::ending::exit_code;
use program::number::read;
use program::refusal::refused;
use std::alloc::{AllocError, Global};
use std::env;
use std::process::ExitCode;
use tariff::fuel::{Area, FuelInputs, FuelPrice, fuel_price};

const USAGE: &str =
    "wanted are AREA (1 Tokyo, 2 Chubu, 3 Kansai) and three fuel inputs A, B, C in whole yen";

fn inputs_line(alloc: Global, area: Area, inputs: FuelInputs) -> Result<String, AllocError>
    ensures { IfOk result (λ s. string_bytes s ≡ inputs_line (area_name area) inputs.a inputs.b inputs.c) }
{
    let area = area.name();
    let FuelInputs { a, b, c } = inputs;
    format!(in alloc; "{area}: inputs {a}, {b} and {c} yen")
}

fn price_line(alloc: Global, found: FuelPrice) -> Result<String, AllocError>
    ensures { IfOk result (λ s. string_bytes s ≡ price_line found.average found.price) }
{
    let FuelPrice { average, price, .. } = found;
    format!(in alloc; "average {average} yen, fuel price {price} sen per kWh")
}

// The two lines that are printed of the words of a command line. A number above what its type holds becomes the largest,
// which every refusal treats alike.
fn priced(alloc: Global, words: &[String]) -> anyhow::Result<String>
    ensures { IfOk result (λ t. Priced (map string_bytes words.now) (string_bytes t)) }
{
    let [_, area, a, b, c] = words else {
        bail!(USAGE);
    };
    let area = read::<u64, u8>(area.as_str())?;
    let inputs = FuelInputs {
        a: read::<u64, u32>(a.as_str())?,
        b: read::<u64, u32>(b.as_str())?,
        c: read::<u64, u32>(c.as_str())?,
    };
    let found = fuel_price(area, inputs).map_err(|fault| refused(fault, fault.reason()))?;
    let inputs = inputs_line(alloc, found.area, inputs)?;
    let price = price_line(alloc, found)?;
    Ok(format!(in alloc; "{inputs}\n{price}\n")?)
}

fn run(rt: &HostRuntime, words: &[String]) -> anyhow::Result<()> {
    rt.print(priced(rt.alloc(), words)?)?;
    Ok(())
}

fn main(rt: HostRuntime) -> anyhow::Result<ExitCode> {
    let words: Vec<String> = env::args(&rt)?.collect(rt.alloc())?;
    exit_code(&rt, "fuel", run(&rt, &words))
}
