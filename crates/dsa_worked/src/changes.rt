//! Changes that may come in a state, and changes of which a test fails there; and the cause for
//! which a submission is refused.

ghost use Rattle.std.specs.Prelude.{[], ◌∷◌, ◌++◌, Some, None};
ghost use Rattle.dsa_regs.specs.Worked.{caps, first_group};
ghost use Rattle.dsa_regs.specs.declared.Phase.TheVariants.{Off, On};
ghost use Rattle.dsa_book.specs.State.{State};
ghost use Rattle.dsa_book.specs.declared.answer.Cause.TheVariants.{AtLimit, NotEnabled, WrongKind};
ghost use Rattle.dsa_book.specs.declared.answer.SubmitAnswer.TheVariants.{Retry};
ghost use Rattle.dsa_book.specs.declared.event.Kind.TheVariants.{Enqcmd, Movdir64b};
ghost use Rattle.dsa_book.specs.declared.event.Portal.TheVariants.{Limited, Unlimited};
ghost use Rattle.dsa_laws.specs.Change.{IsOver, IsWaiting, IsDeviceEnabled, IsQueueEnabled, IsAborted, IsReset, IsCleared, IsAbandoned, IsGroupWritten};
ghost use Rattle.dsa_laws.specs.Refusals.{IsRefused, EachHasItsCause};
ghost use Rattle.dsa_worked.specs.Setup.{setup, no_op, enqcmd, step_of_a_take, to_shared};
ghost use Rattle.dsa_worked.specs.Changes.{state_with, none_held, one_waits, two_wait, drains_two, refused_often, state_here};

/// A drain is over where it is active and nothing is held that it waits for.
pub fn ends_of_drains()
    ensures over { IsOver (state_with On none_held (Some drains_two))
        (state_with On none_held None) }
    ensures entries_are_awaited { (s' : State)
        → ¬ IsOver (state_with On one_waits (Some drains_two)) s' }
    ensures nothing_to_wait_for { (s' : State)
        → ¬ IsWaiting (state_with On none_held None) s' }
    ensures another_is_active { (s' : State)
        → ¬ IsWaiting (state_with On one_waits (Some drains_two)) s' }
{}

/// The device is enabled where it is Off, no command is active, and its check finds nothing.
pub fn enables()
    ensures enabled { IsDeviceEnabled (state_with Off none_held None)
        (record (state_with Off none_held None) {
          work = record (state_with Off none_held None).work {
            setup = record (state_with Off none_held None).work.setup { device = On };
          };
        }) }
    ensures is_on { (s' : State) → ¬ IsDeviceEnabled (state_with On none_held None) s' }
    ensures has_a_fault { (s' : State)
        → ¬ IsDeviceEnabled (record (state_with Off none_held None) {
          work = record (state_with Off none_held None).work {
            setup = record (state_with Off none_held None).work.setup {
              groups = first_group ∷ first_group ∷ [];
            };
          };
        }) s' }
    ensures a_drain_is_active { (s' : State)
        → ¬ IsDeviceEnabled (state_with Off none_held (Some drains_two)) s' }
    ensures device_is_off { (s' : State)
        → ¬ IsQueueEnabled (state_with Off none_held None) s' }
{}

/// Nothing is aborted or reset while a command is active, no error is cleared where none is noted,
/// no members are abandoned without a failed batch, and no group is written while the device is On.
pub fn changes_that_may_not_come()
    ensures no_abort { (s' : State) → ¬ IsAborted (state_with On one_waits (Some drains_two)) s' }
    ensures no_reset { (s' : State) → ¬ IsReset (state_with On one_waits (Some drains_two)) s' }
    ensures nothing_noted { (s' : State) → ¬ IsCleared (state_with On one_waits None) s' }
    ensures no_failed_batch { (s' : State)
        → ¬ IsAbandoned (record (state_with On one_waits None) {
          work = record (state_with On one_waits None).work { notes = [] };
        }) s' }
    ensures group_is_locked { (s' : State) → ¬ IsGroupWritten (state_with On one_waits None) s' }
{}

/// The causes for which queue 0, which is shared, and its limited portal, which two entries fill,
/// turn submissions away.
pub fn causes_of_refusals()
    ensures at_the_limit { IsRefused (state_with On two_wait None).work 0 Limited (Enqcmd 5)
        AtLimit }
    ensures off_and_other_kind { ¬ IsRefused (state_with Off two_wait None).work 0 Limited Movdir64b
        WrongKind }
    ensures below_the_limit { ¬ IsRefused (state_with On one_waits None).work 0 Limited (Enqcmd 5)
        AtLimit }
    ensures below_the_size { ¬ IsRefused (state_with On two_wait None).work 0 Unlimited (Enqcmd 5)
        AtLimit }
    ensures other_kind { IsRefused (state_with On two_wait None).work 0 Limited Movdir64b
        WrongKind }
    ensures its_kind { ¬ IsRefused (state_with On two_wait None).work 0 Limited (Enqcmd 5)
        WrongKind }
    ensures kind_comes_first { ¬ IsRefused (state_with On two_wait None).work 0 Limited Movdir64b
        AtLimit }
    ensures off { IsRefused (state_with Off two_wait None).work 0 Limited Movdir64b NotEnabled }
    ensures off_comes_first { ¬ IsRefused (state_with Off two_wait None).work 0 Limited (Enqcmd 5)
        AtLimit }
    ensures on { ¬ IsRefused (state_with On two_wait None).work 0 Limited (Enqcmd 5) NotEnabled }
    ensures after_many { IsRefused (state_here (refused_often 200)).work 0 Limited (Enqcmd 5)
        AtLimit }
{}

/// In a history each Retry for want of room came at the limit, and at the limit nothing else did.
pub fn refusals_of_histories()
    ensures no_steps { EachHasItsCause caps [] }
    ensures below_the_limit { ¬ EachHasItsCause caps
        (setup ++ enqcmd no_op (Retry AtLimit) ∷ []) }
    ensures for_another_cause { ¬ EachHasItsCause caps
        (setup ++ refused_often 0 ++ enqcmd no_op (Retry NotEnabled) ∷ []) }
    ensures accepted_at_the_limit { ¬ EachHasItsCause caps
        (setup ++ refused_often 60 ++ to_shared no_op 2 2 ∷ []) }
    ensures taken_entries_make_room { ¬ EachHasItsCause caps
        (setup ++ (refused_often 60 ++ step_of_a_take 0 0 0 ∷ [])
        ++ enqcmd no_op (Retry AtLimit) ∷ []) }
{}
