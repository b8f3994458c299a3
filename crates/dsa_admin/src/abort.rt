//! Aborts: what ends, what stays, and how many entries those were.

ghost use Rattle.std.specs.Prelude.{◌≡◌, ◌+◌, ◌≤◌, Option, length};
ghost use Rattle.dsa_store.specs.Content.{held_count};
ghost use Rattle.dsa_book.specs.Commands.{after_abort, abort_of, count_in_scope, reset};
ghost use Rattle.dsa_queues.specs.Queues.{IsCounted};
ghost use Rattle.dsa_engines.specs.Engines.{IsInStep, work};
ghost use Rattle.dsa_regs.specs.Command.{number_of_command, scope_of};
ghost use Rattle.dsa_book.specs.declared.note.ActiveCommand.{ActiveCommand};
ghost use Rattle.dsa_admin.specs.Admin.{state};

use crate::withdrawal::withdraw;
use dsa_book::{Book, IssueAnswer};
use dsa_engines::Engines;
use dsa_queues::Queues;
use dsa_regs::{Command, Phase, Scope};
use dsa_store::EntryStore;

/// Ends each entry that the command is about, list by list and the front first, and answers how
/// many those were. Each gets a row; one that ran gives its read buffers back, and a well-formed
/// Batch in progress takes its note along.
pub(crate) fn abort<S: EntryStore>(
    queues: &mut Queues,
    engines: &mut Engines,
    store: &mut S,
    book: &mut Book,
    command: &Command,
) -> u32
    requires in_step { IsInStep queues.old.setup engines.old (S.cells store.old)
        (S.content store.old) }
    requires counted { IsCounted queues.old (S.content store.old) }
    requires room { length book.old.fates + held_count (S.content store.old) ≤ book.old.row_room }
    ensures work { after_abort (number_of_command command.now) (scope_of command.now)
        (work queues.old.setup engines.old (S.content store.old) book.old.fates)
        ≡ work queues.new.setup engines.new (S.content store.new) book.new.fates }
    ensures setup { queues.new.setup ≡ queues.old.setup }
    ensures count { result ≡ count_in_scope (scope_of command.now) (S.content store.old) }
    ensures book { book.new ≡ record book.old { fates = book.new.fates } }
    ensures in_step { IsInStep queues.new.setup engines.new (S.cells store.new)
        (S.content store.new) }
    ensures counted { IsCounted queues.new (S.content store.new) }
{
    let free = store.free();
    withdraw(queues, engines, store, book, command);
    store.free() - free
}

/// Ends the entries that the command is about, and leaves the queues as they are.
pub(crate) fn abort_alone<S: EntryStore>(
    queues: &mut Queues,
    engines: &mut Engines,
    store: &mut S,
    book: &mut Book,
    command: &Command,
) -> IssueAnswer
    requires in_step { IsInStep queues.old.setup engines.old (S.cells store.old)
        (S.content store.old) }
    requires counted { IsCounted queues.old (S.content store.old) }
    requires room { length book.old.fates + held_count (S.content store.old) ≤ book.old.row_room }
    ensures aborted { (active : Option ActiveCommand)
        → abort_of (state queues.old.setup engines.old (S.content store.old) book.old.fates active)
        (number_of_command command.now) (scope_of command.now) (λ setup. setup)
        ≡ (
          result,
          state queues.new.setup engines.new (S.content store.new) book.new.fates
              active,
        ) }
    ensures book { book.new ≡ record book.old { fates = book.new.fates } }
    ensures in_step { IsInStep queues.new.setup engines.new (S.cells store.new)
        (S.content store.new) }
    ensures counted { IsCounted queues.new (S.content store.new) }
{
    let aborted = abort(queues, engines, store, book, command);
    IssueAnswer::Ended { aborted }
}

// After Reset Device all is as it was at first, but for the next name. After Reset WQ the named
// queues are `Off`, and of their configurations they keep the sizes alone.
fn reset_scope(queues: &mut Queues, scope: &Scope)
    ensures { queues.new ≡ record queues.old { setup = reset scope.now queues.old.setup } }
{
    match scope {
        Scope::Device => queues.reset(),
        _ => {
            queues.set_phases(scope, Phase::Off);
            queues.keep_sizes(scope);
        }
    }
}

/// Ends the entries that the command is about, and resets the device or the named queues.
pub(crate) fn reset<S: EntryStore>(
    queues: &mut Queues,
    engines: &mut Engines,
    store: &mut S,
    book: &mut Book,
    command: &Command,
) -> IssueAnswer
    requires in_step { IsInStep queues.old.setup engines.old (S.cells store.old)
        (S.content store.old) }
    requires counted { IsCounted queues.old (S.content store.old) }
    requires room { length book.old.fates + held_count (S.content store.old) ≤ book.old.row_room }
    ensures reset { (active : Option ActiveCommand)
        → abort_of (state queues.old.setup engines.old (S.content store.old) book.old.fates active)
        (number_of_command command.now) (scope_of command.now)
        (reset (scope_of command.now))
        ≡ (
          result,
          state queues.new.setup engines.new (S.content store.new) book.new.fates
              active,
        ) }
    ensures book { book.new ≡ record book.old { fates = book.new.fates } }
    ensures in_step { IsInStep queues.new.setup engines.new (S.cells store.new)
        (S.content store.new) }
    ensures counted { IsCounted queues.new (S.content store.new) }
{
    let aborted = abort(queues, engines, store, book, command);
    reset_scope(queues, &command.scope());
    IssueAnswer::Ended { aborted }
}
