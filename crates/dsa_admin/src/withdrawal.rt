//! What an abort takes out of the lists.

ghost use Rattle.std.specs.Prelude.{◌≡◌, ◌+◌, ◌<◌, ◌≤◌, ◌++◌, None, filter, get_or, length, map, not, slice_set};
ghost use Rattle.dsa_regs.specs.Caps.{list_use};
ghost use Rattle.dsa_regs.specs.Command.{scope_of};
ghost use Rattle.dsa_base.specs.Numbers.{numbers_below};
ghost use Rattle.dsa_store.specs.Content.{after_give_back, all_held, chain, held_count, only_where};
ghost use Rattle.dsa_book.specs.declared.fate.Fate.TheVariants.{Aborted};
ghost use Rattle.dsa_book.specs.Work.{progress_list};
ghost use Rattle.dsa_book.specs.Commands.{is_in_scope, kept_note};
ghost use Rattle.dsa_regs.specs.declared.Scope.TheVariants.{Device};
ghost use Rattle.dsa_queues.specs.Queues.{IsCounted};
ghost use Rattle.dsa_engines.specs.Engines.{IsInStep};
ghost use Rattle.dsa_admin.specs.Admin.{is_spared, notes_left, row_of_abort, rows_of_abort};

use crate::scope::is_in_scope;
use dsa_book::{Book, Fate, FateRow};
use dsa_engines::Engines;
use dsa_queues::Queues;
use dsa_regs::{Command, Scope};
use dsa_store::{Entry, EntryStore, ListId, held_entries};

// The row of an entry that the command takes out.
fn row_of(command: &Command, entry: &Entry) -> FateRow
    ensures { result ≡ row_of_abort command.now entry.now }
{
    FateRow {
        name: entry.name,
        parent: entry.parent,
        fate: Fate::Aborted(command.number()),
    }
}

// Takes out of the list what the command is about, the front first, and writes a row for each. The
// rest keeps its order.
fn withdraw_from<S: EntryStore>(
    queues: &mut Queues,
    engines: &mut Engines,
    store: &mut S,
    book: &mut Book,
    command: &Command,
    list: ListId,
)
    requires list { list.0 < length (S.content store.old) }
    requires in_step { IsInStep queues.old.setup engines.old (S.cells store.old)
        (S.content store.old) }
    requires counted { IsCounted queues.old (S.content store.old) }
    requires room { length book.old.fates + held_count (S.content store.old) ≤ book.old.row_room }
    ensures setup { queues.new.setup ≡ queues.old.setup }
    ensures left { S.content store.new
        ≡ slice_set (S.content store.old) list.0
        (filter (is_spared command.now) (chain (S.content store.old) list.0)) }
    ensures rows { book.new
        ≡ record book.old {
          fates = book.old.fates
              ++ rows_of_abort command.now (chain (S.content store.old) list.0);
        } }
    ensures notes { engines.new.notes
        ≡ notes_left queues.old.setup (scope_of command.now) (list_use queues.old.setup.caps list.0)
        (chain (S.content store.old) list.0) engines.old.notes }
    ensures in_step { IsInStep queues.new.setup engines.new (S.cells store.new)
        (S.content store.new) }
    ensures counted { IsCounted queues.new (S.content store.new) }
{
    let from = queues.list_use(list);
    let scope = command.scope();
    let mut at = store.front(list);
    for _place in 0..store.len(list) {
        let Some(cell) = at else { unreachable!() };
        let Some(entry) = store.get(cell) else {
            unreachable!()
        };
        at = store.next(cell);
        if !is_in_scope(&scope, &entry) {
            continue;
        }
        let _ = store.unlink(cell);
        book.add_row(row_of(command, &entry));
        engines.removed(queues, from, &entry);
        queues.left(entry.queue);
    }
}

// Writes a row for each entry of the list, which a command that is about all entries takes out, and
// gives the list back.
fn give_back<S: EntryStore>(
    queues: &mut Queues,
    engines: &mut Engines,
    store: &mut S,
    book: &mut Book,
    command: &Command,
    list: ListId,
)
    requires all { scope_of command.now ≡ Device }
    requires list { list.0 < length (S.content store.old) }
    requires in_step { IsInStep queues.old.setup engines.old (S.cells store.old)
        (S.content store.old) }
    requires counted { IsCounted queues.old (S.content store.old) }
    requires room { length book.old.fates + held_count (S.content store.old) ≤ book.old.row_room }
    ensures setup { queues.new.setup ≡ queues.old.setup }
    ensures left { S.content store.new ≡ after_give_back (S.content store.old) list.0 }
    ensures rows { book.new
        ≡ record book.old {
          fates = book.old.fates
              ++ rows_of_abort command.now (chain (S.content store.old) list.0);
        } }
    ensures notes { engines.new.notes
        ≡ notes_left queues.old.setup Device (list_use queues.old.setup.caps list.0)
        (chain (S.content store.old) list.0) engines.old.notes }
    ensures in_step { IsInStep queues.new.setup engines.new (S.cells store.new)
        (S.content store.new) }
    ensures counted { IsCounted queues.new (S.content store.new) }
{
    let from = queues.list_use(list);
    for (_, held) in held_entries(store, list) {
        book.add_row(row_of(command, &held));
        engines.removed(queues, from, &held);
        queues.left(held.queue);
    }
    let _ = store.give_back(list);
}

/// Takes out what the command is about, list by list and the front first, and writes a row for
/// each. With a well-formed Batch in progress its engine's note goes. A list of which nothing stays
/// is given back whole.
pub(crate) fn withdraw<S: EntryStore>(
    queues: &mut Queues,
    engines: &mut Engines,
    store: &mut S,
    book: &mut Book,
    command: &Command,
)
    requires in_step { IsInStep queues.old.setup engines.old (S.cells store.old)
        (S.content store.old) }
    requires counted { IsCounted queues.old (S.content store.old) }
    requires room { length book.old.fates + held_count (S.content store.old) ≤ book.old.row_room }
    ensures setup { queues.new.setup ≡ queues.old.setup }
    ensures left { S.content store.new
        ≡ only_where (λ entry. not (is_in_scope (scope_of command.now) entry))
        (S.content store.old) }
    ensures rows { book.new
        ≡ record book.old {
          fates = book.old.fates
              ++ rows_of_abort command.now (all_held (S.content store.old));
        } }
    ensures notes { engines.new.notes
        ≡ map
        (λ e. kept_note queues.old.setup (scope_of command.now)
        (chain (S.content store.old) (progress_list queues.old.setup e))
        (get_or engines.old.notes e None))
        (numbers_below queues.old.setup.caps.engines) }
    ensures in_step { IsInStep queues.new.setup engines.new (S.cells store.new)
        (S.content store.new) }
    ensures counted { IsCounted queues.new (S.content store.new) }
{
    for list in 0..store.lists() {
        match command.scope() {
            Scope::Device => give_back(queues, engines, store, book, command, ListId(list)),
            _ => withdraw_from(queues, engines, store, book, command, ListId(list)),
        }
    }
}
