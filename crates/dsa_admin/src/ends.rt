//! Whether a command has to wait.

ghost use Rattle.std.specs.Prelude.{◌≡◌, ◌<◌, ◌^◌, length, true};
ghost use Rattle.std.specs.List.{count_by};
ghost use Rattle.dsa_store.specs.Content.{Content, chain, count_where, held_count};
ghost use Rattle.dsa_book.specs.Commands.{is_at_end, is_in_scope};
ghost use Rattle.dsa_queues.specs.Queues.{IsCounted};
ghost use Rattle.dsa_admin.specs.Admin.{is_waited_for, is_watched, names_queues};

use crate::scope::{is_counting, is_waited_for, names};
use dsa_book::ActiveCommand;
use dsa_queues::Queues;
use dsa_regs::{Deed, Scope};
use dsa_store::{EntryStore, ListId, held_entries};

// How many entries of the list the command waits for.
fn count_in<S: EntryStore>(store: &S, active: &ActiveCommand, list: ListId) -> u32
    requires list { list.0 < length (S.content store.now) }
    requires few { held_count (S.content store.now) < 2 ^ 32 }
    ensures { result
        ≡ count_by (λ pair. is_waited_for active.now pair.1) (chain (S.content store.now) list.0) }
{
    let mut count = 0;
    for (_, entry) in held_entries(store, list) {
        if is_waited_for(active, &entry) {
            count += 1;
        }
    }
    count
}

/// How many held entries the command waits for. Walks the lists.
pub fn count_waited<S: EntryStore>(store: &S, active: &ActiveCommand) -> u32
    ensures { result ≡ count_where (is_waited_for active.now) (S.content store.now) }
{
    // Nothing is held.
    if store.free() == store.cells() {
        return 0;
    }
    let mut count = 0;
    for list in 0..store.lists() {
        count += count_in(store, active, ListId(list));
    }
    count
}

/// How many held entries the command counts. Walks the lists, but for a disable, which counts none.
pub(crate) fn count_watched<S: EntryStore>(store: &S, active: &ActiveCommand) -> u32
    ensures { result ≡ count_where (is_watched active.now) (S.content store.now) }
{
    if is_counting(active.command.deed()) {
        count_waited(store, active)
    } else {
        0
    }
}

// How many held entries name a queue of the scope.
fn count_named(queues: &Queues, scope: &Scope) -> u64
    requires { names_queues scope.now ≡ true }
    ensures { (content : Content)
        → IsCounted queues.now content
        → result ≡ count_where (is_in_scope scope.now) content }
{
    let mut count = 0;
    for queue in 0..queues.caps().queues {
        if names(scope, queue) {
            count += u64::from(queues.held_of(queue));
        }
    }
    count
}

/// How many held entries the command waits for: of a disable's queues by their numbers, else the
/// number of entries that are still awaited. Looks at no list.
pub(crate) fn count_awaited(queues: &Queues, active: &ActiveCommand, awaited: u32) -> u64
    ensures { (content : Content)
        → IsCounted queues.now content
        → awaited ≡ count_where (is_watched active.now) content
        → result ≡ count_where (is_waited_for active.now) content }
{
    match active.command.deed() {
        Deed::Disable => count_named(queues, &active.command.scope()),
        _ => u64::from(awaited),
    }
}

/// Whether nothing is held that the command waits for.
pub(crate) fn is_at_end(queues: &Queues, active: &ActiveCommand, awaited: u32) -> bool
    ensures { (content : Content)
        → IsCounted queues.now content
        → awaited ≡ count_where (is_watched active.now) content
        → result ≡ is_at_end active.now content }
{
    count_awaited(queues, active, awaited) == 0
}
