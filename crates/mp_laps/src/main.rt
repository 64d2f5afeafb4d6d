//! A bench: requests that are submitted and finished one after another, over the words of two paths in plain memory. The
//! one word of the command line says how many, from 0 to 30,000,000.
#![tactic(auto)]

ghost use Rattle.std.specs.Prelude.{◌≤◌, IfSome};

use crate::bench::{Told, bench};
use mp_checks::digits::number_of;
use std::env;
use std::io::{self, Print};
use std::process::ExitCode;
use std::rt::Env;

mod bench;
#[cfg(test)]
mod counted;
#[cfg(test)]
mod desk_tests;
#[cfg(test)]
mod keeper_tests;
#[cfg(test)]
mod lane_tests;
mod lap;
#[cfg(test)]
mod step_tests;
#[cfg(test)]
mod table_tests;
#[cfg(test)]
mod telling;
#[cfg(test)]
mod tests;

/// The most laps.
const MOST: u64 = 30_000_000;

/// How many laps the command line asks for, where it is one such number.
fn wanted(rt: &(impl Env + AllocGlobal)) -> Option<u32>
    ensures { IfSome result (λ count. count ≤ 30000000) }
{
    let Ok(args) = env::args(rt) else {
        return None;
    };
    let mut words = args.skip(1);
    let word = words.next()?;
    let count = number_of(word.as_bytes())?;
    if count > MOST || words.next().is_some() {
        return None;
    }
    Some(count as u32)
}

/// Prints what is told of laps.
fn say(rt: &impl Print, count: u32, told: &Told) -> io::Result<()> {
    println!(rt;
        "{count} laps, {} done, side {}, depth {}",
        told.done, told.side, told.depth
    )
}

fn main(rt: HostRuntime) -> ExitCode {
    let Some(count) = wanted(&rt) else {
        return ExitCode::from(2);
    };
    match bench(rt.alloc(), count) {
        Ok(told) => match say(&rt, count, &told) {
            Ok(()) => ExitCode::from(0),
            Err(_) => ExitCode::from(3),
        },
        Err(_) => ExitCode::from(1),
    }
}
