//! Commands over a store of vectors, on two queues: queue 0 is shared, of size 4, and queue 1
//! dedicated, of size 2 and PASID 7.

ghost use Rattle.std.specs.Prelude.{◌≡◌, ◌+◌, ◌≤◌, length, true};
ghost use Rattle.dsa_store.specs.Content.{Content, held_count};
ghost use Rattle.dsa_queues.specs.Queues.{IsCounted};
ghost use Rattle.dsa_tests.specs.Parts.{Agree, AllAgree};

use crate::layers::setup::{book, numbers, store, written};
use dsa_admin::Admin;
use dsa_book::{Book, Fate, FateRow, IssueAnswer, Ticket};
use dsa_desc::Descriptor;
use dsa_engines::Engines;
use dsa_fixtures::{FIRST_GROUP, FIRST_QUEUE, MOVE, SECOND_GROUP};
use dsa_queues::Queues;
use dsa_regs::{Command, GroupConfig, Phase, QueueMask, cell_count, list_count};
use dsa_store::{Entry, EntryStore, ListId};
use std::process::Abort;

const BOTH: QueueMask = QueueMask { group: 0, mask: 3 };

// The book has room for a row of each entry that is held.
fn has_room<S: EntryStore>(store: &S, book: &Book) -> bool
    requires { book.now.row_room ≡ book.now.capacity }
    ensures { result ≡ true
        → length book.now.fates + held_count (S.content store.now) ≤ book.now.row_room }
{
    let rows = book.fates().len();
    let held = (store.cells() - store.free()) as usize;
    rows <= book.capacity() && held <= book.capacity() - rows
}

// The parts of a device, which commands change.
#[derive(Drop)]
struct Parts<S: EntryStore> {
    admin: Admin,
    queues: Queues,
    engines: Engines,
    store: S,
    book: Book,
}

// The engines of a device that is Off, over an empty store.
fn engines_of<S: EntryStore>(rt: &impl Abort, queues: &Queues, store: &S) -> Engines
    requires { (content : Content) → held_count content ≡ 0 → IsCounted queues.now content }
    ensures { Agree queues.now result (S.cells store.now) (S.content store.now) }
{
    let caps = queues.caps();
    assert!(rt; queues.device() == Phase::Off);
    assert!(rt; store.lists() == list_count(&caps));
    assert!(rt; store.cells() == cell_count(&caps));
    assert!(rt; store.free() == store.cells());
    Engines::new(&caps)
}

// The parts of a device that is Off, with these groups written.
fn parts_of<S: EntryStore>(
    rt: &impl Abort,
    groups: [GroupConfig; 2],
    store: S,
    book: Book,
) -> Parts<S>
    requires { book.row_room ≡ book.capacity }
    ensures { AllAgree result.queues result.engines result.admin result.book
        (S.cells result.store)
        (S.content result.store) }
{
    let queues = written(rt, groups);
    Parts {
        admin: Admin::new(),
        engines: engines_of(rt, &queues, &store),
        queues,
        store,
        book,
    }
}

// The command is issued, once it is seen that the book has room.
fn issue<S: EntryStore>(rt: &impl Abort, parts: &mut Parts<S>, command: Command) -> IssueAnswer
    requires { AllAgree parts.old.queues parts.old.engines parts.old.admin parts.old.book
        (S.cells parts.old.store)
        (S.content parts.old.store) }
    ensures { AllAgree parts.new.queues parts.new.engines parts.new.admin parts.new.book
        (S.cells parts.new.store)
        (S.content parts.new.store) }
{
    let Parts {
        admin,
        queues,
        engines,
        store,
        book,
    } = parts;
    assert!(rt; has_room(store, book));
    admin.issue(queues, engines, store, book, command)
}

// The commands are issued in turn, each with its answer.
fn issue_each<S: EntryStore>(rt: &impl Abort, parts: &mut Parts<S>, rows: &[(Command, IssueAnswer)])
    requires { AllAgree parts.old.queues parts.old.engines parts.old.admin parts.old.book
        (S.cells parts.old.store)
        (S.content parts.old.store) }
    ensures { AllAgree parts.new.queues parts.new.engines parts.new.admin parts.new.book
        (S.cells parts.new.store)
        (S.content parts.new.store) }
{
    for (command, answer) in rows {
        claim!(rt; issue(rt, parts, *command) == *answer);
    }
}

// An entry that was submitted stands last in the queue, which counts it.
fn push<S: EntryStore>(
    rt: &impl Abort,
    parts: &mut Parts<S>,
    queue: u16,
    desc: Descriptor,
) -> Ticket
    requires { AllAgree parts.old.queues parts.old.engines parts.old.admin parts.old.book
        (S.cells parts.old.store)
        (S.content parts.old.store) }
    ensures { AllAgree parts.new.queues parts.new.engines parts.new.admin parts.new.book
        (S.cells parts.new.store)
        (S.content parts.new.store) }
{
    assert!(rt; parts.queues.device() == Phase::On);
    assert!(rt; parts.queues.has_queue(queue));
    assert!(rt; parts.queues.next_name() < 1000);
    let entry = Entry {
        name: parts.queues.give_name(),
        parent: None,
        desc,
        queue,
        running: false,
    };
    let Some(cell) = parts.store.push_back(ListId(queue), entry) else {
        panic!(rt; "no cell is free")
    };
    parts.queues.entered(queue);
    claim!(rt; parts.store.list_of(cell) == Some(ListId(queue)));
    Ticket {
        cell,
        name: entry.name,
    }
}

// The moves are pushed in turn, each to a queue with a PASID.
fn push_each<S: EntryStore>(rt: &impl Abort, parts: &mut Parts<S>, entries: &[(u16, u32)])
    requires { AllAgree parts.old.queues parts.old.engines parts.old.admin parts.old.book
        (S.cells parts.old.store)
        (S.content parts.old.store) }
    ensures { AllAgree parts.new.queues parts.new.engines parts.new.admin parts.new.book
        (S.cells parts.new.store)
        (S.content parts.new.store) }
{
    for (queue, pasid) in entries {
        let desc = Descriptor {
            pasid: *pasid,
            ..MOVE
        };
        push(rt, parts, *queue, desc);
    }
}

// The answer of a command that ended at once and aborted nothing.
const ENDED: IssueAnswer = IssueAnswer::Ended { aborted: 0 };

// The commands are issued in turn: how many entries each aborts, and the numbers of the queues
// after it.
fn abort_each<S: EntryStore>(
    rt: &impl Abort,
    parts: &mut Parts<S>,
    rows: &[(Command, u32, [u32; 2])],
)
    requires { AllAgree parts.old.queues parts.old.engines parts.old.admin parts.old.book
        (S.cells parts.old.store)
        (S.content parts.old.store) }
    ensures { AllAgree parts.new.queues parts.new.engines parts.new.admin parts.new.book
        (S.cells parts.new.store)
        (S.content parts.new.store) }
{
    for (command, aborted, left) in rows {
        let answer = IssueAnswer::Ended { aborted: *aborted };
        claim!(rt; issue(rt, parts, *command) == answer);
        claim!(rt; numbers(rt, &parts.queues) == *left);
    }
}

// An abort of one PASID takes out its entries of both queues, and a reset keeps the sizes and the
// next name.
fn aborted<S: EntryStore>(rt: &impl Abort, store: S, book: Book)
    requires { book.row_room ≡ book.capacity }
{
    const ENABLES: [(Command, IssueAnswer); 3] = [
        (Command::EnableDevice, ENDED),
        (Command::EnableWq(0), ENDED),
        (Command::EnableWq(1), ENDED),
    ];
    const ENTRIES: [(u16, u32); 5] = [(0, 5), (0, 6), (0, 5), (1, 5), (1, 7)];
    const ABORTS: [(Command, u32, [u32; 2]); 3] = [
        (Command::AbortPasid(5), 3, [1, 1]),
        (Command::AbortWq(FIRST_QUEUE), 1, [0, 1]),
        (Command::ResetWq(BOTH), 1, [0, 0]),
    ];
    const RESET: [(Command, IssueAnswer); 1] = [(Command::ResetDevice, ENDED)];
    let mut parts = parts_of(rt, [FIRST_GROUP, SECOND_GROUP], store, book);
    issue_each(rt, &mut parts, &ENABLES);
    push_each(rt, &mut parts, &ENTRIES);
    claim!(rt; numbers(rt, &parts.queues) == [3, 2]);
    abort_each(rt, &mut parts, &ABORTS);
    were_aborted(rt, &parts.book);
    sizes_are_kept(rt, &parts.queues);
    issue_each(rt, &mut parts, &RESET);
    claim!(rt; parts.queues.device() == Phase::Off);
    claim!(rt; parts.queues.next_name() == 5);
}

// A reset of queues keeps their sizes alone.
fn sizes_are_kept(rt: &impl Abort, queues: &Queues) {
    claim!(rt; queues.queue(0).size == 4);
    claim!(rt; queues.queue(0).priority == 0);
    claim!(rt; queues.phase(1) == Phase::Off);
}

// Each entry has the number of the command that took it out.
fn were_aborted(rt: &impl Abort, book: &Book) {
    const ROWS: [(u32, u8); 5] = [(0, 12), (2, 12), (3, 12), (1, 9), (4, 10)];
    for &(name, number) in &ROWS {
        let row = FateRow {
            name,
            parent: None,
            fate: Fate::Aborted(number),
        };
        claim!(rt; book.fate(name) == Some(row));
    }
}

#[test]
fn aborts_take_out_their_scope(rt: HostRuntime) {
    let alloc = rt.alloc();
    aborted(&rt, store(&rt, alloc), book(&rt, alloc, 100));
}
