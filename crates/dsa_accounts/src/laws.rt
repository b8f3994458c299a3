//! Laws of accounts, each on a function with nothing to do. A history is a list of steps from the
//! opening of a device with these capabilities.

ghost use Rattle.std.specs.Prelude.{◌≡◌, ℕ, ◌+◌, ◌<◌, ◌≤◌, List, ◌∷◌, ◌++◌, length, find, None, Some, true, false};
ghost use Rattle.dsa_desc.specs.declared.Outcome.{Outcome};
ghost use Rattle.dsa_base.specs.Rows.{first_row};
ghost use Rattle.dsa_regs.specs.declared.Caps.{Caps};
ghost use Rattle.dsa_regs.specs.Caps.{cell_count};
ghost use Rattle.dsa_store.specs.Content.{held_count, HeldEntry};
ghost use Rattle.dsa_book.specs.declared.answer.FinishAnswer.TheVariants.{Done};
ghost use Rattle.dsa_book.specs.declared.answer.Reply.TheVariants as reply;
ghost use Rattle.dsa_book.specs.declared.answer.Ticket.{Ticket};
ghost use Rattle.dsa_book.specs.declared.event.Event.TheVariants.{Finish};
ghost use Rattle.dsa_book.specs.declared.event.Kind.{Kind};
ghost use Rattle.dsa_book.specs.declared.event.Portal.{Portal};
ghost use Rattle.dsa_book.specs.declared.event.Step.{Step};
ghost use Rattle.dsa_book.specs.declared.note.BatchNote.{BatchNote};
ghost use Rattle.dsa_book.specs.State.{State, is_batch_of, is_ticket};
ghost use Rattle.dsa_book.specs.Machine.{intake_of, Reaches};
ghost use Rattle.dsa_book.specs.Submit.{submit_table};
ghost use Rattle.dsa_book.specs.Work.{is_all_fetched, note_at, running_on};
ghost use Rattle.dsa_book.specs.Totals.{total_accepted, total_fetched, total_done, total_lost};
ghost use Rattle.dsa_accounts.specs.Accounts.{submitted_entries, member_entries, only_members_abandoned};
ghost use Rattle.dsa_accounts.specs.BatchCounts.{AddsUp, HasEnded};
ghost use Rattle.dsa_accounts.specs.FreeCells.{HasFreeCell};

/// Each accepted and each fetched entry has a name of its own, and the next name is their number.
pub fn names_are_given_in_turn()
    ensures { (caps : Caps) (history : List Step) (s : State)
        → Reaches caps history s
        → total_accepted history + total_fetched history ≡ s.work.setup.next_name }
{}

/// Each done, aborted or abandoned entry has a fate row, and there is no other.
pub fn fates_are_counted()
    ensures { (caps : Caps) (history : List Step) (s : State)
        → Reaches caps history s
        → total_done history + total_lost history ≡ length s.work.fates }
{}

/// What came is done, lost or still held, and no more names were given than there are steps.
pub fn entries_are_accounted_for()
    ensures held { (caps : Caps) (history : List Step) (s : State)
        → Reaches caps history s
        → total_accepted history + total_fetched history
        ≡ total_done history + total_lost history + held_count s.work.content }
    ensures names { (caps : Caps) (history : List Step) (s : State)
        → Reaches caps history s
        → s.work.setup.next_name ≤ length history }
{}

/// As many entries were accepted as have a fate row or are held, among those without a parent.
pub fn accepted_entries_are_held_or_have_a_fate()
    ensures { (caps : Caps) (history : List Step) (s : State)
        → Reaches caps history s
        → total_accepted history ≡ submitted_entries s.work }
{}

/// As many members were fetched as have a fate row or are held, among those with a parent.
pub fn fetched_members_are_held_or_have_a_fate()
    ensures { (caps : Caps) (history : List Step) (s : State)
        → Reaches caps history s
        → total_fetched history ≡ member_entries s.work }
{}

/// What a program submitted is completed or aborted, never abandoned.
pub fn members_alone_are_abandoned()
    ensures { (caps : Caps) (history : List Step) (s : State)
        → Reaches caps history s
        → only_members_abandoned s.work.fates ≡ true }
{}

/// Where a submission is not turned away there is a cell for it: fewer are held than the store has
/// cells, and one of these is free.
pub fn accepting_queues_find_a_free_cell()
    ensures room { (caps : Caps) (history : List Step) (s : State) (queue : ℕ)
        (portal : Portal) (kind : Kind)
        → Reaches caps history s
        → first_row (submit_table (intake_of s) queue portal kind) ≡ None
        → held_count s.work.content < cell_count caps }
    ensures cell { (caps : Caps) (history : List Step) (s : State) (queue : ℕ)
        (portal : Portal) (kind : Kind)
        → Reaches caps history s
        → first_row (submit_table (intake_of s) queue portal kind) ≡ None
        → HasFreeCell caps s.work }
{}

/// Where members of an engine's batch are still to be fetched there is a cell for the next one.
pub fn open_batches_find_a_free_cell()
    ensures room { (caps : Caps) (history : List Step) (s : State) (engine : ℕ) (note : BatchNote)
        → Reaches caps history s
        → note_at s.work engine ≡ Some note
        → is_all_fetched note ≡ false
        → held_count s.work.content < cell_count caps }
    ensures cell { (caps : Caps) (history : List Step) (s : State) (engine : ℕ) (note : BatchNote)
        → Reaches caps history s
        → note_at s.work engine ≡ Some note
        → is_all_fetched note ≡ false
        → HasFreeCell caps s.work }
{}

/// While an engine works on a batch, each member that was fetched of it is done, abandoned or held.
pub fn members_of_an_open_batch_add_up()
    ensures { (caps : Caps) (history : List Step) (s : State) (engine : ℕ) (note : BatchNote)
        → Reaches caps history s
        → note_at s.work engine ≡ Some note
        → AddsUp s.work note }
{}

/// A well-formed Batch of n ends once all n members are done, or once its rest is abandoned, and
/// then the done and the abandoned ones are at most n; no member is held then, none was ever
/// aborted, and all this stays so.
pub fn members_of_an_ended_batch_add_up()
    ensures { (caps : Caps) (before after : List Step) (s s' : State) (engine : ℕ) (ticket : Ticket)
        (outcome : Outcome) (status : ℕ) (batch : HeldEntry)
        → Reaches caps before s
        → find (is_ticket ticket) (running_on s.work engine) ≡ Some batch
        → is_batch_of s.work.setup batch.1 ≡ true
        → Reaches caps
        (before
        ++ record
        { event = Finish engine ticket outcome; reply = reply.Finish (Done status) }
        ∷ after)
        s'
        → HasEnded s'.work batch.1.name batch.1.desc.size }
{}
