//! The queues of the small device, written and enabled.

ghost use Rattle.std.specs.Prelude.{◌≡◌};
ghost use Rattle.dsa_store.specs.Content.{Content, held_count};
ghost use Rattle.dsa_queues.specs.Queues.{IsCounted};

use dsa_book::{Book, WriteAnswer};
use dsa_fixtures::{CAPS, CELLS, DEDICATED_QUEUE, LISTS, SHARED_QUEUE};
use dsa_queues::Queues;
use dsa_regs::{GroupConfig, Phase, check_caps};
use dsa_store::PlainStore;
use std::alloc::Global;
use std::process::Abort;

/// An empty store for the small device.
pub fn store(rt: &impl Abort, alloc: Global) -> PlainStore {
    PlainStore::new(alloc, LISTS, CELLS).expect(rt, "memory for a store")
}

/// A book with room for so many steps.
pub fn book(rt: &impl Abort, alloc: Global, capacity: usize) -> Book
    ensures { result.row_room ≡ result.capacity }
{
    Book::new(alloc, capacity).expect(rt, "memory for a book")
}

/// The queues of a device that is Off, with both queues and both groups written.
pub fn written(rt: &impl Abort, groups: [GroupConfig; 2]) -> Queues
    ensures { (content : Content) → held_count content ≡ 0 → IsCounted result content }
{
    assert!(rt; check_caps(&CAPS));
    let mut queues = Queues::new(CAPS);
    claim!(rt; queues.write_queue(0, SHARED_QUEUE) == WriteAnswer::Written);
    claim!(rt; queues.write_queue(1, DEDICATED_QUEUE) == WriteAnswer::Written);
    claim!(rt; queues.write_group(0, groups[0]) == WriteAnswer::Written);
    claim!(rt; queues.write_group(1, groups[1]) == WriteAnswer::Written);
    queues
}

/// The same with the device and both queues On.
pub fn enabled(rt: &impl Abort, groups: [GroupConfig; 2]) -> Queues
    ensures { (content : Content) → held_count content ≡ 0 → IsCounted result content }
{
    let mut queues = written(rt, groups);
    queues.set_device(Phase::On);
    assert!(rt; queues.has_queue(0));
    assert!(rt; queues.has_queue(1));
    claim!(rt; !queues.has_queue(2));
    queues.set_phase(0, Phase::On);
    queues.set_phase(1, Phase::On);
    queues
}

/// The numbers of held entries that name queue 0 and queue 1.
pub fn numbers(rt: &impl Abort, queues: &Queues) -> [u32; 2] {
    assert!(rt; queues.has_queue(0));
    assert!(rt; queues.has_queue(1));
    [queues.held_of(0), queues.held_of(1)]
}
