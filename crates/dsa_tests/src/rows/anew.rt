//! A history that begins anew, over both stores: what is configured, held and active goes on.

use crate::layers::devices::enabled;
use crate::rows::calls::{linked, plain};
use crate::rows::tickets::{
    DISPATCH, FETCH, START, ends, given, linked_store, plain_store, submission,
};
use dsa_book::{
    DispatchAnswer, Event, Fate, FinishAnswer, IssueAnswer, PastFates, PollAnswer, Reply, Ticket,
    WriteAnswer,
};
use dsa_desc::Outcome;
use dsa_device::Device;
use dsa_fixtures::{CAPS, MOVE, NO_OP, SHARED_QUEUE, batch_of};
use dsa_regs::{Caps, Command, GroupConfig, Phase, cell_count, check_caps, list_count};
use dsa_store::EntryStore;
use std::alloc::Global;
use std::process::Abort;

const DONE: FinishAnswer = FinishAnswer::Done(0x01);

const COMPLETED: Fate = Fate::Completed(0x01);

/// The history of the device begins anew, with room for as many steps as at first.
pub fn anew<S: EntryStore>(rt: &impl Abort, device: &mut Device<S>, past: PastFates) {
    claim!(rt; device.begin_anew(past).is_ok());
    claim!(rt; device.is_anew());
    claim!(rt; device.history().is_empty());
    claim!(rt; device.capacity() == device.room());
}

// What waits in the queue, all that is held, and the next name.
fn counts<S: EntryStore>(device: &Device<S>) -> (Option<u16>, u32, u32) {
    (device.occupancy(0), device.held(), device.next_name())
}

// Of three entries the first has ended, the second is on the engine, and the third waits.
fn three_entries<S: EntryStore>(rt: &impl Abort, device: &mut Device<S>) -> [Ticket; 3] {
    let first = given(rt, device, submission(5, NO_OP));
    let second = given(rt, device, submission(5, NO_OP));
    claim!(rt; given(rt, device, DISPATCH) == first);
    ends(rt, device, first, DONE);
    claim!(rt; given(rt, device, DISPATCH) == second);
    let third = given(rt, device, submission(5, NO_OP));
    [first, second, third]
}

// The two that are held end, and the next entry has the next name.
fn two_end<S: EntryStore>(rt: &impl Abort, device: &mut Device<S>, second: Ticket, third: Ticket) {
    ends(rt, device, second, DONE);
    claim!(rt; given(rt, device, DISPATCH) == third);
    ends(rt, device, third, DONE);
    claim!(rt; device.fate(1) == Some(COMPLETED));
    claim!(rt; device.fate(2) == Some(COMPLETED));
    claim!(rt; given(rt, device, submission(5, NO_OP)).name == 3);
}

// Entries and names go on, and the fate of the entry that has ended is this one.
fn entries_go_on<S: EntryStore>(
    rt: &impl Abort,
    alloc: Global,
    store: S,
    past: PastFates,
    first_fate: Option<Fate>,
) {
    let mut device = enabled(rt, alloc, store, 16);
    let [first, second, third] = three_entries(rt, &mut device);
    claim!(rt; first.name == 0);
    anew(rt, &mut device, past);
    claim!(rt; counts(&device) == (Some(1), 2, 3));
    claim!(rt; device.fate(0) == first_fate);
    two_end(rt, &mut device, second, third);
    claim!(rt; device.fate(0) == first_fate);
}

#[test]
fn past_fates_are_kept(rt: HostRuntime) {
    let alloc = rt.alloc();
    let (past, fate) = (PastFates::Kept, Some(COMPLETED));
    entries_go_on(&rt, alloc, plain_store(&rt, alloc), past, fate);
    entries_go_on(&rt, alloc, linked_store(&rt, alloc), past, fate);
}

#[test]
fn past_fates_are_forgotten(rt: HostRuntime) {
    let alloc = rt.alloc();
    let past = PastFates::Forgotten;
    entries_go_on(&rt, alloc, plain_store(&rt, alloc), past, None);
    entries_go_on(&rt, alloc, linked_store(&rt, alloc), past, None);
}

// A drain waits for an entry, and is over once that has ended.
fn drain_goes_on<S: EntryStore>(rt: &impl Abort, alloc: Global, store: S) {
    let mut device = enabled(rt, alloc, store, 16);
    let entry = given(rt, &mut device, submission(5, NO_OP));
    claim!(rt; device.issue(Command::DrainAll) == IssueAnswer::Active);
    anew(rt, &mut device, PastFates::Forgotten);
    claim!(rt; device.active() == Some(Command::DrainAll));
    claim!(rt; device.awaited() == Some(1));
    claim!(rt; device.poll() == PollAnswer::Active);
    claim!(rt; given(rt, &mut device, DISPATCH) == entry);
    ends(rt, &mut device, entry, DONE);
    claim!(rt; device.poll() == PollAnswer::Finished);
}

#[test]
fn drain_across(rt: HostRuntime) {
    let alloc = rt.alloc();
    drain_goes_on(&rt, alloc, plain_store(&rt, alloc));
    drain_goes_on(&rt, alloc, linked_store(&rt, alloc));
}

// No step is made.
fn is_full<S: EntryStore>(rt: &impl Abort, device: &mut Device<S>) {
    claim!(rt; device.is_full());
    claim!(rt; device.step(DISPATCH) == Reply::Dispatch(DispatchAnswer::Full));
}

// An entry comes and ends, and a drain finds nothing.
fn four_steps<S: EntryStore>(rt: &impl Abort, device: &mut Device<S>, name: u32) {
    let entry = given(rt, device, submission(5, NO_OP));
    claim!(rt; entry.name == name);
    claim!(rt; given(rt, device, DISPATCH) == entry);
    ends(rt, device, entry, DONE);
    claim!(rt; device.issue(Command::DrainAll) == IssueAnswer::Ended { aborted: 0 });
}

// A history with room for four steps is full, and has room for four more each time.
fn has_room_again<S: EntryStore>(rt: &impl Abort, alloc: Global, store: S) {
    let mut device = enabled(rt, alloc, store, 4);
    is_full(rt, &mut device);
    for name in 0..20 {
        anew(rt, &mut device, PastFates::Kept);
        four_steps(rt, &mut device, name);
        is_full(rt, &mut device);
    }
    claim!(rt; device.fates().len() == 20);
}

#[test]
fn full_history_has_room_again(rt: HostRuntime) {
    let alloc = rt.alloc();
    has_room_again(&rt, alloc, plain_store(&rt, alloc));
    has_room_again(&rt, alloc, linked_store(&rt, alloc));
}

// A Move is fetched as a member of the batch and started, and ends so.
fn member_ends<S: EntryStore>(
    rt: &impl Abort,
    device: &mut Device<S>,
    outcome: Outcome,
    answer: FinishAnswer,
) {
    let fetch = Event::Fetch {
        engine: 0,
        desc: MOVE,
    };
    let member = given(rt, device, fetch);
    claim!(rt; given(rt, device, START) == member);
    claim!(rt; device.finish(0, member, outcome) == answer);
}

// The batch ends as one of which a member failed, though the fate of that member is forgotten.
fn batch_goes_on<S: EntryStore>(rt: &impl Abort, alloc: Global, store: S) {
    let mut device = enabled(rt, alloc, store, 16);
    let batch = given(rt, &mut device, submission(5, batch_of(2)));
    claim!(rt; given(rt, &mut device, DISPATCH) == batch);
    member_ends(
        rt,
        &mut device,
        Outcome::PageFault,
        FinishAnswer::Done(0x03),
    );
    anew(rt, &mut device, PastFates::Forgotten);
    member_ends(rt, &mut device, Outcome::Success, DONE);
    ends(rt, &mut device, batch, FinishAnswer::Done(0x05));
    claim!(rt; device.fate(1).is_none());
    claim!(rt; device.fate(2) == Some(COMPLETED));
}

#[test]
fn failed_member_across(rt: HostRuntime) {
    let alloc = rt.alloc();
    batch_goes_on(&rt, alloc, plain_store(&rt, alloc));
    batch_goes_on(&rt, alloc, linked_store(&rt, alloc));
}

// The devices make each step with the same reply.
fn steps_are_alike<S: EntryStore>(
    rt: &impl Abort,
    one: &mut Device<S>,
    other: &mut Device<S>,
    events: &[Event],
) {
    for event in events {
        claim!(rt; one.step(*event) == other.step(*event));
    }
}

// A device whose history begins anew again and again, and one of which it never does.
fn devices_are_alike<S: EntryStore>(rt: &impl Abort, alloc: Global, first: S, second: S) {
    let batch = submission(5, batch_of(2));
    let events = [
        batch,
        DISPATCH,
        FETCH,
        START,
        FETCH,
        batch,
        DISPATCH,
        START,
        Event::Poll,
    ];
    let mut one = enabled(rt, alloc, first, 100);
    let mut other = enabled(rt, alloc, second, 100);
    for _ in 0..5 {
        anew(rt, &mut one, PastFates::Forgotten);
        steps_are_alike(rt, &mut one, &mut other, &events);
    }
    claim!(rt; counts(&one) == counts(&other));
    claim!(rt; one.batch(0) == other.batch(0));
}

#[test]
fn same_replies(rt: HostRuntime) {
    let alloc = rt.alloc();
    let (first, second) = (plain_store(&rt, alloc), plain_store(&rt, alloc));
    devices_are_alike(&rt, alloc, first, second);
    let (first, second) = (linked_store(&rt, alloc), linked_store(&rt, alloc));
    devices_are_alike(&rt, alloc, first, second);
}

// A device with its last queue, its last group and its last engine.
const GROUP: GroupConfig = GroupConfig {
    queues: 1 << 6,
    engines: 1 << 4,
    reserved: 4,
    allowed: 8,
};

const WIDE: Caps = Caps {
    queues: 7,
    groups: 3,
    engines: 5,
    total_size: 40,
    ..CAPS
};

fn wide_device<S: EntryStore>(rt: &impl Abort, alloc: Global, store: S) -> Device<S> {
    match Device::new(alloc, store, WIDE, 8) {
        Ok(device) => device,
        Err(_) => panic!(rt; "the device was not made"),
    }
}

// The last queue and the last group are configured, and both are enabled.
fn wide_is_enabled<S: EntryStore>(rt: &impl Abort, device: &mut Device<S>) {
    const ENDED: IssueAnswer = IssueAnswer::Ended { aborted: 0 };
    claim!(rt; device.write_queue(6, SHARED_QUEUE) == WriteAnswer::Written);
    claim!(rt; device.write_group(2, GROUP) == WriteAnswer::Written);
    claim!(rt; device.issue(Command::EnableDevice) == ENDED);
    claim!(rt; device.issue(Command::EnableWq(6)) == ENDED);
}

fn wide_stays<S: EntryStore>(rt: &impl Abort, device: &Device<S>) {
    claim!(rt; device.caps() == WIDE);
    claim!(rt; device.phase() == Phase::On);
    claim!(rt; device.queue_phase(6) == Some(Phase::On));
    claim!(rt; device.queue_phase(5) == Some(Phase::Off));
    claim!(rt; device.queue_config(6) == Some(SHARED_QUEUE));
    claim!(rt; device.group_config(2) == Some(GROUP));
}

fn wide_goes_on<S: EntryStore>(rt: &impl Abort, alloc: Global, store: S) {
    let mut device = wide_device(rt, alloc, store);
    wide_is_enabled(rt, &mut device);
    for past in [PastFates::Forgotten, PastFates::Kept] {
        anew(rt, &mut device, past);
        wide_stays(rt, &device);
    }
    claim!(rt; device.dispatch(4) == DispatchAnswer::Idle);
}

#[test]
fn configuration_stays(rt: HostRuntime) {
    let alloc = rt.alloc();
    assert!(&rt; check_caps(&WIDE));
    let (lists, cells) = (list_count(&WIDE), cell_count(&WIDE));
    wide_goes_on(&rt, alloc, plain(&rt, alloc, lists, cells));
    wide_goes_on(&rt, alloc, linked(&rt, alloc, lists, cells));
}
