//! The sentences of faults of sharing, of settling and of a run.

use dsa_shared::{SettleFault, ShareFault};
use dsa_workers::RunFault;
use std::alloc::Global;
use std::fmt::Display;
use std::process::Abort;

fn reads<F: Display + Drop>(rt: &impl Abort, alloc: Global, fault: F, sentence: &str) {
    let text = format!(in alloc; "{fault}").expect(rt, "memory for a text");
    same!(rt; text.as_str(), sentence);
}

#[test]
fn faults(rt: HostRuntime) {
    let alloc = rt.alloc();
    let clients = "a shared device has 1 to 64 clients";
    reads(&rt, alloc, ShareFault::BadClients, clients);
    reads(
        &rt,
        alloc,
        ShareFault::NotFresh,
        "the device has made a step",
    );
    let anew = "the history of the device began anew";
    reads(&rt, alloc, ShareFault::BegunAnew, anew);
    reads(&rt, alloc, ShareFault::OutOfMemory, "out of memory");
    let missing = "a seat is missing, or there are two of it";
    reads(&rt, alloc, SettleFault::SeatMissing, missing);
    let mismatch = "the receipts of a seat differ from the history at 1048576";
    reads(&rt, alloc, SettleFault::ReceiptMismatch(1 << 20), mismatch);
    let scripts = "a seat has no script, or a script has no seat";
    reads(&rt, alloc, RunFault::ScriptCount, scripts);
    reads(&rt, alloc, RunFault::OutOfMemory, "out of memory");
}
