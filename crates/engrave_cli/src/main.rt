//! The program: gives the words, the host's files and the standard output to the top call, and ends with its status.
//!
//! It is proved never to panic. What it promises is the contract of `engrave_core::engrave`.
#![tactic(auto)]

ghost use Rattle.std.specs.Prelude.{◌≡◌, ◌≢◌, ◌⊎◌, IfErr};

use engrave_core::{engrave, status};
use shop_port::{HostDepot, HostSink};
use std::io::ErrorKind;
use std::process::ExitCode;
use std::rt::{Env, Files};
use std::{env, io};

/// The status that reports that memory ran out while the words were listed.
const NO_MEMORY: u8 = 7;

/// The status that reports that the words couldn't be listed for another cause.
const NO_WORDS: u8 = 8;

/// The status that reports why the words couldn't be listed.
fn listing_status(kind: ErrorKind) -> u8
    ensures memory { kind ≡ ErrorKind.OutOfMemory → result ≡ NO_MEMORY }
    ensures other { kind ≢ ErrorKind.OutOfMemory → result ≡ NO_WORDS }
{
    if kind == ErrorKind::OutOfMemory {
        NO_MEMORY
    } else {
        NO_WORDS
    }
}

/// The words behind the program's name, or the status that reports why they can't be had.
fn words(rt: &(impl Env + AllocGlobal)) -> Result<Vec<String>, u8>
    ensures { IfErr result (λ status. (status ≡ NO_MEMORY) ⊎ (status ≡ NO_WORDS)) }
{
    let mut listed = env::args(rt).map_err(|error| listing_status(error.kind()))?;
    let _program = listed.next();
    listed.collect(rt.alloc()).map_err(|_| NO_MEMORY)
}

fn main(rt: HostRuntime) -> ExitCode {
    let words = match words(&rt) {
        Ok(words) => words,
        Err(status) => return ExitCode::from(status),
    };
    let mut depot = HostDepot::new(&rt);
    let mut out = HostSink::new(io::writer(&rt));
    ExitCode::from(status(&engrave(rt.alloc(), &words, &mut depot, &mut out)))
}

#[cfg(test)]
mod tests;
