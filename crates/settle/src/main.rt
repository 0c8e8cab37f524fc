// settle: takes the slips of standard input, and writes a line for each to standard output.
#![tactic(auto)]

ghost use Rattle.std.specs.Prelude.{◌≡◌, IfOk};
ghost use Rattle.counter.specs.Run.{run_bytes};

use anyhow::ensure;
use counter::settle::{room, settle};
use program::ending::exit_code;
use std::alloc::{AllocError, Global};
use std::env;
use std::io::{Read, Write};
use std::process::ExitCode;

const USAGE: &str = "wanted is no argument; usage: settle < SLIPS > LINES";

// The lines of an input's slips.
fn lines(alloc: Global, input: &[u8]) -> Result<Vec<u8>, AllocError>
    ensures { IfOk result (λ v. v.items ≡ run_bytes input.now) }
{
    let mut out = vec![in alloc; 0; room(input.len())]?;
    let count = settle(input, &mut out).unwrap();
    out.truncate(count);
    Ok(out)
}

fn run(rt: &HostRuntime) -> anyhow::Result<()> {
    let words: Vec<String> = env::args(rt)?.collect(rt.alloc())?;
    ensure!(words.len() <= 1, USAGE);
    let mut input = Vec::new(rt.alloc());
    rt.stdin().read_to_end(&mut input)?;
    let written = lines(rt.alloc(), &input)?;
    rt.stdout().write_all(&written)?;
    Ok(())
}

fn main(rt: HostRuntime) -> anyhow::Result<ExitCode> {
    exit_code(&rt, "settle", run(&rt))
}
