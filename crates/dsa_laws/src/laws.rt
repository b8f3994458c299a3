//! The laws, each on a function with nothing to do. A history is a list of steps from the opening
//! of a device with these capabilities.

ghost use Rattle.std.specs.Prelude.{◌≡◌, ℕ, ◌+◌, ◌<◌, ◌≤◌, List, ◌∷◌, ◌++◌, false, option_map};
ghost use Rattle.dsa_desc.specs.declared.Descriptor.{Descriptor};
ghost use Rattle.dsa_regs.specs.declared.Caps.{Caps};
ghost use Rattle.dsa_regs.specs.declared.Phase.TheVariants.{Off};
ghost use Rattle.dsa_store.specs.Content.{held_count};
ghost use Rattle.dsa_book.specs.declared.event.Event.{Event};
ghost use Rattle.dsa_book.specs.declared.event.Event.TheVariants as event;
ghost use Rattle.dsa_book.specs.declared.event.Kind.{Kind};
ghost use Rattle.dsa_book.specs.declared.event.Portal.{Portal};
ghost use Rattle.dsa_book.specs.declared.event.Step.{Step};
ghost use Rattle.dsa_book.specs.declared.answer.Reply.{Reply};
ghost use Rattle.dsa_book.specs.declared.answer.Reply.TheVariants as reply;
ghost use Rattle.dsa_book.specs.declared.answer.SubmitAnswer.{SubmitAnswer};
ghost use Rattle.dsa_book.specs.State.{State};
ghost use Rattle.dsa_book.specs.declared.fate.FateRow.{FateRow};
ghost use Rattle.dsa_book.specs.Machine.{is_stored, next, LeadsTo, Reaches};
ghost use Rattle.dsa_laws.specs.Change.{Change};
ghost use Rattle.dsa_laws.specs.Forgotten.{with_past_fates};
ghost use Rattle.dsa_laws.specs.Refusals.{HasItsCause, EachHasItsCause};
ghost use Rattle.dsa_laws.specs.WellFormed.{IsWellFormed, IsWithinLimits, held_named, fates_named};
ghost use Rattle.dsa_laws.specs.Engines.{HasLawfulEngines};
ghost use Rattle.dsa_laws.specs.Buffering.{HasBuffers};

/// Every step that may come is one of the changes, with all that it tested.
pub fn steps_are_changes()
    ensures { (s s' : State) (event : Event) (reply : Reply)
        → LeadsTo s event reply s'
        → Change s s' }
{}

/// And each change is made by some step that may come: so none lacks a test.
pub fn changes_are_steps()
    ensures { (s s' : State)
        → Change s s'
        → (event : Event) × (reply : Reply) × LeadsTo s event reply s' }
{}

/// A step whose reply is not stored changes nothing.
pub fn unstored_steps_change_nothing()
    ensures { (s s' : State) (event : Event) (reply : Reply)
        → LeadsTo s event reply s'
        → is_stored reply ≡ false
        → s' ≡ s }
{}

/// No step looks at a fate: with other fates of long ago the same replies may come, and lead to the
/// same state but for these fates.
pub fn steps_look_at_no_fates()
    ensures { (past : List FateRow) (s : State) (event : Event) (reply : Reply)
        → next (with_past_fates past s) event reply
        ≡ option_map (with_past_fates past) (next s event reply) }
{}

/// Each step of a history is one that may come in the state that the steps before it lead to.
pub fn steps_follow_those_before()
    ensures { (caps : Caps) (before after : List Step) (step : Step) (s : State)
        → Reaches caps (before ++ step ∷ after) s
        → (t t' : State) × Reaches caps before t × LeadsTo t step.event step.reply t' }
{}

/// A submission is refused for a cause exactly where its queue turns it away for this cause; so is
/// each submission of a history, in the state that the steps before it lead to.
pub fn refusals_have_their_cause()
    ensures step { (s s' : State) (client queue : ℕ) (portal : Portal) (kind : Kind)
        (desc : Descriptor) (answer : SubmitAnswer)
        → LeadsTo s (event.Submit client queue portal kind desc) (reply.Submit answer) s'
        → HasItsCause s.work queue portal kind answer }
    ensures history { (caps : Caps) (history : List Step) (s : State)
        → Reaches caps history s
        → EachHasItsCause caps history }
{}

/// Every state that a history leads to is well formed.
pub fn histories_are_well_formed()
    ensures { (caps : Caps) (history : List Step) (s : State)
        → Reaches caps history s
        → IsWellFormed caps s }
{}

/// Each name below the next one is one held entry's or one fate row's, and no other name is given.
pub fn each_name_is_held_or_has_a_fate()
    ensures given { (caps : Caps) (history : List Step) (s : State) (name : ℕ)
        → Reaches caps history s
        → name < s.work.setup.next_name
        → held_named s.work name + fates_named s.work name ≡ 1 }
    ensures not_given { (caps : Caps) (history : List Step) (s : State) (name : ℕ)
        → Reaches caps history s
        → s.work.setup.next_name ≤ name
        → held_named s.work name + fates_named s.work name ≡ 0 }
{}

/// No queue holds more than its size, and no engine has more in progress than slots or more members
/// than a batch may have.
pub fn limits_are_kept()
    ensures { (caps : Caps) (history : List Step) (s : State)
        → Reaches caps history s
        → IsWithinLimits caps s.work }
{}

/// No group uses more read buffers than it may, and what each group has reserved is at hand, unless
/// the device is Off.
pub fn read_buffers_are_covered()
    ensures { (caps : Caps) (history : List Step) (s : State)
        → Reaches caps history s
        → HasBuffers caps s.work }
{}

/// An engine has a note exactly where one batch is in progress there, which the note is of, and its
/// members are of that batch.
pub fn engines_work_on_one_batch()
    ensures { (caps : Caps) (history : List Step) (s : State)
        → Reaches caps history s
        → HasLawfulEngines s.work }
{}
