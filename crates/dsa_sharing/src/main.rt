//! Four clients submit in threads of their own, an engine works, and the seats are settled.
#![tactic(auto)]

use anyhow::{Result, bail};
use dsa_book::{DispatchAnswer, Portal};
use dsa_cells::LinkedStore;
use dsa_desc::Outcome;
use dsa_device::Device;
use dsa_fixtures::single::{CAPS, GROUP, QUEUE};
use dsa_fixtures::{ENQCMD, MOVE, bytes_of};
use dsa_regs::{Command, QueueConfig, cell_count, check_caps, list_count};
use dsa_shared::{AdminSeat, ClientSeat, EngineSeat, SharedDevice, Sharing};
use dsa_store::EntryStore;
use dsa_workers::{Program, run_program};
use std::alloc::Global;
use std::sync::Wait;

// The limited portal has room for one entry. The queue has room for all.
const NARROW_QUEUE: QueueConfig = QueueConfig {
    threshold: 1,
    ..QUEUE
};

// Each client submits so many Moves; the engine ends so many of all.
#[derive(Clone, Copy)]
struct Moves {
    each: u16,
    ended: u16,
}

impl Program for Moves {
    fn set_up<S: EntryStore, L: Sharing, R: Wait>(
        &self,
        rt: &R,
        shared: &SharedDevice<S, L>,
        seat: &mut AdminSeat<L>,
    ) {
        shared.write_queue(rt, seat, 0, NARROW_QUEUE);
        shared.write_group(rt, seat, 0, GROUP);
        shared.issue(rt, seat, Command::EnableDevice);
        shared.issue(rt, seat, Command::EnableWq(0));
    }

    fn submit<S: EntryStore, L: Sharing, R: Wait>(
        &self,
        rt: &R,
        shared: &SharedDevice<S, L>,
        seat: &mut ClientSeat<L>,
    ) {
        let bytes = bytes_of(MOVE);
        for _ in 0..self.each {
            let answer = shared.submit(rt, seat, 0, Portal::Limited, ENQCMD, &bytes);
            if answer.zf(ENQCMD) == Some(true) {
                shared.submit(rt, seat, 0, Portal::Unlimited, ENQCMD, &bytes);
            }
        }
    }

    fn serve<S: EntryStore, L: Sharing, R: Wait>(
        &self,
        rt: &R,
        shared: &SharedDevice<S, L>,
        seat: &mut EngineSeat<L>,
    ) {
        let mut left = self.ended;
        for _ in rt.forever() {
            if left == 0 {
                return;
            }
            if let DispatchAnswer::Taken { ticket, .. } = shared.dispatch(rt, seat) {
                shared.finish(rt, seat, ticket, Outcome::Success);
                left -= 1;
            }
        }
    }
}

// A device with nothing configured.
fn device(alloc: Global) -> Result<Device<LinkedStore>> {
    if !check_caps(&CAPS) {
        bail!("no device has such capabilities");
    }
    let store = LinkedStore::new(alloc, list_count(&CAPS), cell_count(&CAPS))?;
    let Ok(device) = Device::new(alloc, store, CAPS, 100) else {
        bail!("no device was made");
    };
    Ok(device)
}

fn main(rt: HostRuntime) -> Result<()> {
    let device = device(rt.alloc())?;
    let moves = Moves { each: 1, ended: 11 };
    let Ok(settled) = run_program(&rt, rt.alloc(), device, 12, &moves) else {
        bail!("not settled");
    };
    let totals = settled.totals;
    println!(rt;
        "accepted {}, done {}, held {}",
        totals.accepted, totals.done, totals.held
    )?;
    Ok(())
}
