//! Engines over a store of vectors.

ghost use Rattle.std.specs.Prelude.{◌≡◌, ◌<◌, ◌==◌, not, length};
ghost use Rattle.dsa_store.specs.Content.{Content, chain, held_count};
ghost use Rattle.dsa_book.specs.State.{any_in, is_member};
ghost use Rattle.dsa_queues.specs.Queues.{IsCounted, IsStoreFor};
ghost use Rattle.dsa_engines.specs.Engines.{IsInPlace, QueuesRise};
ghost use Rattle.dsa_tests.specs.Parts.{Agree};

use crate::layers::setup::{book, enabled, store};
use dsa_book::{Book, DispatchAnswer, Fate, FateRow, FinishAnswer, Ticket};
use dsa_desc::{Descriptor, Outcome};
use dsa_engines::Engines;
use dsa_fixtures::{LARGE_MOVE, MOVE};
use dsa_queues::Queues;
use dsa_regs::{GroupConfig, Phase, cell_count, check_device, list_count};
use dsa_store::{Cell, Entry, EntryStore, ListId, held_entries};
use std::process::Abort;

// Both queues in the first group, which has four read buffers, and nothing in the second.
const GROUPS: [GroupConfig; 2] = [
    GroupConfig {
        queues: 3,
        engines: 1,
        reserved: 0,
        allowed: 4,
    },
    GroupConfig {
        queues: 0,
        engines: 0,
        reserved: 0,
        allowed: 0,
    },
];

// An entry that was submitted.
fn entry(name: u32, queue: u16, desc: Descriptor) -> Entry {
    Entry {
        name,
        parent: None,
        desc,
        queue,
        running: false,
    }
}

// The engines of an enabled device, over an empty store.
fn enabled_engines<S: EntryStore>(rt: &impl Abort, queues: &Queues, store: &S) -> Engines
    requires { (content : Content) → held_count content ≡ 0 → IsCounted queues.now content }
    ensures { Agree queues.now result (S.cells store.now) (S.content store.now) }
{
    let caps = queues.caps();
    assert!(rt; store.lists() == list_count(&caps));
    assert!(rt; store.cells() == cell_count(&caps));
    assert!(rt; store.free() == store.cells());
    assert!(rt; check_device(&caps, queues.configs(), queues.groups()).is_none());
    let mut engines = Engines::new(&caps);
    engines.enable(queues);
    engines
}

// The entry in a queue, which counts it.
fn put<S: EntryStore>(
    rt: &impl Abort,
    queues: &mut Queues,
    engines: &Engines,
    store: &mut S,
    entry: Entry,
) -> Cell
    requires { Agree queues.old engines.now (S.cells store.old) (S.content store.old) }
    ensures { Agree queues.new engines.now (S.cells store.new) (S.content store.new) }
{
    let caps = queues.caps();
    assert!(rt; entry.queue < caps.queues);
    assert!(rt; queues.device() == Phase::On);
    let Some(cell) = store.push_back(ListId(entry.queue), entry) else {
        panic!(rt; "no cell is free");
    };
    queues.entered(entry.queue);
    cell
}

// Whether an entry in the queue names another one.
fn is_misplaced<S: EntryStore>(store: &S, queue: u16) -> bool
    requires { queue < length (S.content store.now) }
    ensures { result
        ≡ any_in (λ entry. not (entry.queue == queue)) (chain (S.content store.now) queue) }
{
    held_entries(store, ListId(queue)).any(|pair| pair.1.queue != queue)
}

// Whether an entry in the list is no member of a batch.
fn has_submitted<S: EntryStore>(store: &S, list: ListId) -> bool
    requires { list.0 < length (S.content store.now) }
    ensures { result
        ≡ any_in (λ entry. not (is_member entry)) (chain (S.content store.now) list.0) }
{
    held_entries(store, list).any(|pair| pair.1.parent.is_none())
}

// What waits in a queue names it, and what stands with the members of an engine is one.
fn see_places<S: EntryStore>(rt: &impl Abort, queues: &Queues, store: &S)
    requires { IsStoreFor queues.now.setup.caps (S.cells store.now) (S.content store.now) }
    ensures { IsInPlace queues.now.setup (S.content store.now) }
{
    let caps = queues.caps();
    assert!(rt; caps.queues == 2 && caps.engines == 2);
    assert!(rt; !is_misplaced(store, 0));
    assert!(rt; !is_misplaced(store, 1));
    assert!(rt; !has_submitted(store, ListId(4)));
    assert!(rt; !has_submitted(store, ListId(5)));
}

// Each queue holds one entry at most, and so is in order.
fn see_order<S: EntryStore>(rt: &impl Abort, queues: &Queues, store: &S)
    requires { IsStoreFor queues.now.setup.caps (S.cells store.now) (S.content store.now) }
    ensures { QueuesRise queues.now.setup (S.content store.now) }
{
    let caps = queues.caps();
    assert!(rt; caps.queues == 2);
    assert!(rt; store.len(ListId(0)) <= 1);
    assert!(rt; store.len(ListId(1)) <= 1);
}

// Ends the entry of the ticket, whose work went so.
fn end<S: EntryStore>(
    rt: &impl Abort,
    queues: &mut Queues,
    engines: &mut Engines,
    store: &mut S,
    book: &mut Book,
    ticket: Ticket,
    outcome: Outcome,
) -> FinishAnswer
    requires agree { Agree queues.old engines.old (S.cells store.old) (S.content store.old) }
    requires rows { book.old.row_room ≡ book.old.capacity }
    ensures agree { Agree queues.new engines.new (S.cells store.new) (S.content store.new) }
    ensures rows { book.new.row_room ≡ book.new.capacity }
{
    see_places(rt, queues, store);
    see_order(rt, queues, store);
    assert!(rt; book.fates().len() < book.capacity());
    engines.finish(queues, store, book, 0, ticket, outcome)
}

// The engine takes the entry of the ticket from the queue.
fn take<S: EntryStore>(
    rt: &impl Abort,
    queues: &Queues,
    engines: &mut Engines,
    store: &mut S,
    ticket: Ticket,
    queue: u16,
)
    requires { Agree queues.now engines.old (S.cells store.old) (S.content store.old) }
    ensures { Agree queues.now engines.new (S.cells store.new) (S.content store.new) }
{
    let taken = DispatchAnswer::Taken { ticket, queue };
    claim!(rt; engines.dispatch(queues, store, 0) == taken);
}

// The engine finds nothing to take.
fn idle<S: EntryStore>(rt: &impl Abort, queues: &Queues, engines: &mut Engines, store: &mut S)
    requires { Agree queues.now engines.old (S.cells store.old) (S.content store.old) }
    ensures { Agree queues.now engines.new (S.cells store.new) (S.content store.new) }
{
    claim!(rt; engines.dispatch(queues, store, 0) == DispatchAnswer::Idle);
}

// The first of two entries needs all buffers of the group: the second waits for its end.
fn one_runs_at_a_time<S: EntryStore>(rt: &impl Abort, store: &mut S, book: &mut Book)
    requires { book.old.row_room ≡ book.old.capacity }
{
    let mut queues = enabled(rt, GROUPS);
    let mut engines = enabled_engines(rt, &queues, store);
    idle(rt, &queues, &mut engines, store);
    let cell = put(rt, &mut queues, &engines, store, entry(10, 1, LARGE_MOVE));
    let first = Ticket { cell, name: 10 };
    let cell = put(rt, &mut queues, &engines, store, entry(11, 0, MOVE));
    let second = Ticket { cell, name: 11 };
    take(rt, &queues, &mut engines, store, first, 1);
    idle(rt, &queues, &mut engines, store);
    first_ends(rt, &mut queues, &mut engines, store, book, first);
    take(rt, &queues, &mut engines, store, second, 0);
}

// The entry of that cell and no other name ends, and has a row.
fn first_ends<S: EntryStore>(
    rt: &impl Abort,
    queues: &mut Queues,
    engines: &mut Engines,
    store: &mut S,
    book: &mut Book,
    ticket: Ticket,
)
    requires agree { Agree queues.old engines.old (S.cells store.old) (S.content store.old) }
    requires rows { book.old.row_room ≡ book.old.capacity }
    ensures { Agree queues.new engines.new (S.cells store.new) (S.content store.new) }
{
    const ROW: FateRow = FateRow {
        name: 10,
        parent: None,
        fate: Fate::Completed(0x03),
    };
    let other = Ticket { name: 11, ..ticket };
    let gone = end(rt, queues, engines, store, book, other, Outcome::Success);
    claim!(rt; gone == FinishAnswer::Gone);
    let done = end(rt, queues, engines, store, book, ticket, Outcome::PageFault);
    claim!(rt; done == FinishAnswer::Done(0x03));
    claim!(rt; book.fate(10) == Some(ROW));
}

#[test]
fn buffers_of_a_group(rt: HostRuntime) {
    let alloc = rt.alloc();
    one_runs_at_a_time(&rt, &mut store(&rt, alloc), &mut book(&rt, alloc, 2));
}
