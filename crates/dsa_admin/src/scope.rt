//! Whom a command is about.

ghost use Rattle.std.specs.Prelude.{◌≡◌};
ghost use Rattle.dsa_book.specs.Commands.{is_in_scope};
ghost use Rattle.dsa_admin.specs.Admin.{is_counting, is_waited_for, is_watched, names_queue};

use dsa_book::ActiveCommand;
use dsa_regs::{Deed, Scope};
use dsa_store::Entry;

/// Whether the entry is of the scope: all are, those of the named queues, or those of one PASID.
pub fn is_in_scope(scope: &Scope, entry: &Entry) -> bool
    ensures { result ≡ is_in_scope scope.now entry.now }
{
    match scope {
        Scope::Device => true,
        Scope::Queue(queue) => *queue == u32::from(entry.queue),
        Scope::Queues(queues) => queues.contains(entry.queue),
        Scope::Pasid(pasid) => entry.desc.pasid == *pasid,
    }
}

/// Whether the entry keeps the command from its end: for a disable any entry of its scope, for a
/// drain those that were submitted before it.
pub fn is_waited_for(active: &ActiveCommand, entry: &Entry) -> bool
    ensures { result ≡ is_waited_for active.now entry.now }
{
    let is_meant = is_in_scope(&active.command.scope(), entry);
    match active.command.deed() {
        Deed::Disable => is_meant,
        _ => is_meant && entry.parent.is_none() && entry.name < active.mark,
    }
}

/// Whether a command of this deed keeps the number of the entries that it waits for: all do but a
/// disable.
pub(crate) fn is_counting(deed: Deed) -> bool
    ensures { result ≡ is_counting deed }
{
    match deed {
        Deed::Disable => false,
        _ => true,
    }
}

/// Whether the entry is one that the command counts.
pub(crate) fn is_watched(active: &ActiveCommand, entry: &Entry) -> bool
    ensures { result ≡ is_watched active.now entry.now }
{
    is_counting(active.command.deed()) && is_waited_for(active, entry)
}

/// Whether a scope of the device or of queues has this queue.
pub(crate) fn names(scope: &Scope, queue: u16) -> bool
    ensures { result ≡ names_queue scope.now queue }
{
    match scope {
        Scope::Device => true,
        scope => scope.contains(queue),
    }
}
