//! Laws of single steps, each on a function with nothing to do: what may be answered, and what is
//! Stopping.

ghost use Rattle.std.specs.Prelude.{◌≡◌, ◌⊎◌, ℕ, ◌<◌, [], ◌∷◌, ◌++◌, List, slice_set, None, true, false, option_and_then};
ghost use Rattle.dsa_desc.specs.declared.Outcome.{Outcome};
ghost use Rattle.dsa_regs.specs.declared.Caps.{Caps};
ghost use Rattle.dsa_regs.specs.declared.Phase.TheVariants.{Off};
ghost use Rattle.dsa_regs.specs.declared.QueueConfig.{QueueConfig};
ghost use Rattle.dsa_regs.specs.declared.GroupConfig.{GroupConfig};
ghost use Rattle.dsa_regs.specs.Config.{queue_at};
ghost use Rattle.dsa_book.specs.declared.event.Event.{Event};
ghost use Rattle.dsa_book.specs.declared.event.Event.TheVariants as event;
ghost use Rattle.dsa_book.specs.declared.event.Event.TheVariants.{WriteQueue, WriteGroup};
ghost use Rattle.dsa_book.specs.declared.answer.WriteAnswer.TheVariants.{Written};
ghost use Rattle.dsa_book.specs.declared.answer.Reply.TheVariants.{Write};
ghost use Rattle.dsa_book.specs.declared.event.Step.{Step};
ghost use Rattle.dsa_book.specs.declared.answer.Ticket.{Ticket};
ghost use Rattle.dsa_book.specs.declared.answer.DispatchAnswer.TheVariants.{Taken, Idle};
ghost use Rattle.dsa_book.specs.declared.answer.Reply.{Reply};
ghost use Rattle.dsa_book.specs.declared.answer.Reply.TheVariants as reply;
ghost use Rattle.dsa_book.specs.Same.{same_reply};
ghost use Rattle.dsa_book.specs.Choice.{choice_of};
ghost use Rattle.dsa_book.specs.State.{State, opening, phase_at};
ghost use Rattle.dsa_book.specs.Machine.{next, replay, LeadsTo, Reaches};
ghost use Rattle.dsa_book.specs.Work.{qualifies};
ghost use Rattle.dsa_answers.specs.Choices.{AreAlike};
ghost use Rattle.dsa_answers.specs.Alike.{AreStatesAlike, AskAlike, TakeAlike, without_cell};
ghost use Rattle.dsa_answers.specs.Alike.{HeldAsGiven, IsTicketIn, given_after, ticket_named};
ghost use Rattle.dsa_answers.specs.Stops.{StopsByCommand, IsAtRest};
ghost use Rattle.dsa_answers.specs.Writes.{with_configs, with_groups};

/// The replay of a history and one more step is the next state of the history's replay.
pub fn histories_grow_at_the_end()
    ensures { (caps : Caps) (history : List Step) (step : Step)
        → replay caps (history ++ step ∷ [])
        ≡ option_and_then (λ s. next s step.event step.reply) (replay caps history) }
{}

/// Replies that pass for the same are equal, and each reply passes for itself.
pub fn same_replies_are_equal()
    ensures equal { (a b : Reply) → same_reply a b ≡ true → a ≡ b }
    ensures itself { (a : Reply) → same_reply a a ≡ true }
{}

/// Two replies to one event that may both come in a state are equal, but for the cell of an entry
/// that comes in and the queue that one is taken from; where these are the same, the replies and
/// the states after them are.
pub fn replies_differ_in_free_choices()
    ensures alike { (s s' s'' : State) (event : Event) (first second : Reply)
        → LeadsTo s event first s'
        → LeadsTo s event second s''
        → AreAlike first second }
    ensures decided { (s s' s'' : State) (event : Event) (first second : Reply)
        → LeadsTo s event first s'
        → LeadsTo s event second s''
        → choice_of first ≡ choice_of second
        → (first ≡ second) × (s' ≡ s'') }
{}

/// What is Stopping is what the active command disables, so without an active command nothing is.
pub fn commands_stop_what_they_disable()
    ensures by_command { (caps : Caps) (history : List Step) (s : State)
        → Reaches caps history s
        → StopsByCommand s }
    ensures at_rest { (caps : Caps) (history : List Step) (s : State)
        → Reaches caps history s
        → s.active ≡ None
        → IsAtRest s.work.setup }
{}

/// A queue that is Off takes any configuration of its present size, and any at all while the device
/// is Off: the answer is Written, and nothing else.
pub fn queues_that_are_off_are_written()
    ensures written { (s : State) (q : ℕ) (config : QueueConfig)
        → q < s.work.setup.caps.queues
        → phase_at s.work.setup q ≡ Off
        → (config.size ≡ (queue_at s.work.setup.configs q).size) ⊎ (s.work.setup.device ≡ Off)
        → LeadsTo s (WriteQueue q config) (Write Written)
        (with_configs s (slice_set s.work.setup.configs q config)) }
    ensures nothing_else { (s s' : State) (q : ℕ) (config : QueueConfig) (reply : Reply)
        → q < s.work.setup.caps.queues
        → phase_at s.work.setup q ≡ Off
        → (config.size ≡ (queue_at s.work.setup.configs q).size) ⊎ (s.work.setup.device ≡ Off)
        → LeadsTo s (WriteQueue q config) reply s'
        → reply ≡ Write Written }
    ensures no_other_queue { (s s' : State) (q : ℕ) (config : QueueConfig)
        → LeadsTo s (WriteQueue q config) (Write Written) s'
        → (q < s.work.setup.caps.queues) × (phase_at s.work.setup q ≡ Off) }
{}

/// A group takes any configuration while the device is Off: the answer is Written, and nothing
/// else.
pub fn groups_are_written_while_off()
    ensures written { (s : State) (g : ℕ) (config : GroupConfig)
        → g < s.work.setup.caps.groups
        → s.work.setup.device ≡ Off
        → LeadsTo s (WriteGroup g config) (Write Written)
        (with_groups s (slice_set s.work.setup.groups g config)) }
    ensures nothing_else { (s s' : State) (g : ℕ) (config : GroupConfig) (reply : Reply)
        → g < s.work.setup.caps.groups
        → s.work.setup.device ≡ Off
        → LeadsTo s (WriteGroup g config) reply s'
        → reply ≡ Write Written }
    ensures no_other_group { (s s' : State) (g : ℕ) (config : GroupConfig)
        → LeadsTo s (WriteGroup g config) (Write Written) s'
        → (g < s.work.setup.caps.groups) × (s.work.setup.device ≡ Off) }
{}

/// A dispatch takes from a queue for which the engine qualifies, and is idle only where it
/// qualifies for none.
pub fn dispatches_take_where_engines_qualify()
    ensures taken { (s s' : State) (engine queue : ℕ) (ticket : Ticket)
        → LeadsTo s (event.Dispatch engine) (reply.Dispatch (Taken ticket queue)) s'
        → qualifies s.work engine queue ≡ true }
    ensures idle { (s s' : State) (engine queue : ℕ)
        → LeadsTo s (event.Dispatch engine) (reply.Dispatch Idle) s'
        → qualifies s.work engine queue ≡ false }
{}

/// States that differ in the cells of their entries, and in fates, alone answer a question alike
/// and stay alike, where entries are taken from the same queue. An engine qualifies for the same
/// queues in both.
pub fn alike_states_answer_alike()
    ensures next { (caps others : Caps) (history further : List Step) (s t s' t' : State)
        (event other : Event) (first second : Reply)
        → Reaches caps history s
        → Reaches others further t
        → AreStatesAlike s t
        → AskAlike s t event other
        → LeadsTo s event first s'
        → LeadsTo t other second t'
        → TakeAlike first second
        → (without_cell first ≡ without_cell second) × AreStatesAlike s' t' }
    ensures qualifies { (s t : State) (engine queue : ℕ)
        → AreStatesAlike s t
        → qualifies s.work engine queue ≡ qualifies t.work engine queue }
{}

/// A state is alike itself; of two states that are alike, each is alike the other; and two that are
/// alike a third one are alike.
pub fn being_alike_is_an_equivalence()
    ensures itself { (s : State) → AreStatesAlike s s }
    ensures back { (s t : State) → AreStatesAlike s t → AreStatesAlike t s }
    ensures through { (s t u : State)
        → AreStatesAlike s t
        → AreStatesAlike t u
        → AreStatesAlike s u }
{}

/// Each entry that is held is found by its name among the tickets that were given so far. So the
/// ticket of a name is the ticket of the held entry with that name, and ends of one name ask alike.
pub fn held_entries_are_found_by_name()
    ensures opening { (caps : Caps) → HeldAsGiven [] (opening caps) }
    ensures next { (given : List Ticket) (s s' : State) (event : Event) (reply : Reply)
        → HeldAsGiven given s
        → LeadsTo s event reply s'
        → HeldAsGiven (given_after given reply) s' }
    ensures name { (given : List Ticket) (name : ℕ) → (ticket_named given name).name ≡ name }
    ensures ticket { (given : List Ticket) (s : State) (name : ℕ)
        → HeldAsGiven given s
        → IsTicketIn s (ticket_named given name) }
    ensures asked { (given others : List Ticket) (s t : State) (engine name : ℕ)
        (outcome : Outcome)
        → HeldAsGiven given s
        → HeldAsGiven others t
        → AskAlike s t (event.Finish engine (ticket_named given name) outcome)
        (event.Finish engine (ticket_named others name) outcome) }
{}
