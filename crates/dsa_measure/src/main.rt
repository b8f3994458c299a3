//! Steps of a device, for measuring.
//!
//! `dsa_measure unshared ROUNDS` makes rounds of submit, dispatch and finish on one thread by calls
//! of a device, `shared ROUNDS` through seats of a shared one, and `settled ROUNDS` settles in the
//! end. It prints how many entries ended.
//!
//! The other modes make steps of a device that holds many entries while a command waits for one
//! that came after them: `dsa_measure drain HELD COUNT` polls an active drain so often, `disable
//! HELD COUNT` an active disable, `waiting HELD COUNT` submits, dispatches and finishes other
//! entries while the drain is active, and `awaited HELD COUNT` asks which entry it waits for first.
//! `finish-drain HELD COUNT` tries to end a Drain that waits, with many younger entries in its
//! queue. It prints whether the command or the Drain still waits, and how many entries ended or
//! were told. `batches MEMBERS COUNT` makes so many batches of so many members each, and prints how
//! many were done.
//!
//! With no words it makes a small run of each mode, and prints a line for each: the mode's name and
//! what it came to.
#![tactic(auto)]

mod batches;
mod rounds;
mod waits;

use anyhow::{Result, bail};
use dsa_cells::LinkedStore;
use dsa_device::Device;
use dsa_regs::{Caps, cell_count, check_caps, list_count};
use std::alloc::Global;
use std::env;
use std::io::Print;
use std::sync::Wait;

const USAGE: &str =
    "usage: dsa_measure unshared|shared|settled ROUNDS, or drain|disable|waiting|awaited|finish-drain \
     HELD COUNT, or batches MEMBERS COUNT, or no words for a run of each";

// A device with nothing configured, over linked cells.
fn make_device(alloc: Global, caps: &Caps) -> Result<Device<LinkedStore>> {
    if !check_caps(caps) {
        bail!("bad caps");
    }
    let store = LinkedStore::new(alloc, list_count(caps), cell_count(caps))?;
    let Ok(device) = Device::new(alloc, store, *caps, 1_000_000) else {
        bail!("no device");
    };
    Ok(device)
}

// The mode of that name.
fn mode_named<M: Copy>(modes: &[(&str, M)], word: &str) -> Result<M> {
    for (name, mode) in modes {
        if *name == word {
            return Ok(*mode);
        }
    }
    bail!("{USAGE}")
}

// A small run of each mode.
fn run_each<R: Wait + Print>(rt: &R, alloc: Global) -> Result<()> {
    for (name, mode) in rounds::MODES {
        let done = rounds::run(rt, alloc, mode, 10)?;
        println!(rt; "{name}: done {done}")?;
    }
    let done = batches::run(alloc, 64, 2)?;
    println!(rt; "batches: done {done}")?;
    for (name, mode) in waits::MODES {
        let seen = waits::run(alloc, mode, 10, 20)?;
        println!(rt; "{name}: waits {}, done {}", seen.waits, seen.done)?;
    }
    Ok(())
}

fn main(rt: HostRuntime) -> Result<()> {
    let words = env::args(&rt)?.collect::<Vec<String>>(rt.alloc())?;
    match words.as_slice() {
        [_] => run_each(&rt, rt.alloc())?,
        [_, mode, count] => {
            let mode = mode_named(&rounds::MODES, mode)?;
            let done = rounds::run(&rt, rt.alloc(), mode, count.parse()?)?;
            println!(rt; "done {done}")?;
        }
        [_, mode, members, count] if mode_named(&batches::MODES, mode).is_ok() => {
            let done = batches::run(rt.alloc(), members.parse()?, count.parse()?)?;
            println!(rt; "done {done}")?;
        }
        [_, mode, held, count] => {
            let mode = mode_named(&waits::MODES, mode)?;
            let seen = waits::run(rt.alloc(), mode, held.parse()?, count.parse()?)?;
            println!(rt; "waits {}, done {}", seen.waits, seen.done)?;
        }
        _ => bail!("{USAGE}"),
    }
    Ok(())
}
