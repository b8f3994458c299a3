//! Why a submission is turned away, why a configuration is not written, and no error cleared.

ghost use Rattle.std.specs.Prelude.{◌≡◌, [], ◌∷◌, Some, None, true, false, map, take};
ghost use Rattle.dsa_regs.specs.Worked.{caps, shared_queue, dedicated_queue};
ghost use Rattle.dsa_regs.specs.declared.Fault.TheVariants as fault;
ghost use Rattle.dsa_regs.specs.declared.Phase.TheVariants.{Off, On, Stopping};
ghost use Rattle.dsa_book.specs.declared.answer.Cause.TheVariants as cause;
ghost use Rattle.dsa_book.specs.declared.answer.SubmitAnswer.TheVariants.{Accepted, Dropped, Retry};
ghost use Rattle.dsa_book.specs.declared.answer.WriteAnswer.TheVariants.{Refused, Written};
ghost use Rattle.dsa_book.specs.declared.event.Kind.TheVariants.{Enqcmd, Movdir64b};
ghost use Rattle.dsa_book.specs.declared.event.Portal.TheVariants.{Limited, Unlimited};
ghost use Rattle.dsa_book.specs.Machine.{intake_of};
ghost use Rattle.dsa_book.specs.State.{opening_setup};
ghost use Rattle.dsa_worked.specs.Setup.{no_op, ticket};
ghost use Rattle.dsa_worked.specs.Submissions.{two_portals, dedicated_queue_overflows, causes_of_retry};
ghost use Rattle.dsa_worked.specs.Commands.{disable_and_enable_again, abort_and_reset};
ghost use Rattle.dsa_worked.specs.Phases.{disable_of_one_queue_of_two, disable_with_a_queue_that_is_off};
ghost use Rattle.dsa_queues.specs.declared.reasons.SubmitReason.TheVariants.{NotEnabled, WrongKind, AtLimit};
ghost use Rattle.dsa_queues.specs.declared.reasons.WriteReason.TheVariants.{BadIndex, LockedQueue, LockedSize, LockedGroup};
ghost use Rattle.dsa_queues.specs.declared.reasons.ClearReason.TheVariants.{NothingNoted};
ghost use Rattle.dsa_queues.specs.Reasons.{with_reasons};
ghost use Rattle.dsa_queues.specs.Submission.{submit_by, cause_of};
ghost use Rattle.dsa_queues.specs.Write.{write_queue_reason, write_group_reason, write_by, clear_reason, fault_of_write};
ghost use Rattle.dsa_explain_rows.specs.After.{told_after, turned_away, unwritten_queue, unwritten_group};

/// A reason comes in place of what its row leads to, and the conditions stay; as many as there are
/// of both.
pub fn rows_with_reasons()
    ensures each { with_reasons ((true, cause.AtLimit) ∷ (false, cause.NotEnabled) ∷ [])
        (fault.Busy ∷ fault.Locked ∷ [])
        ≡ (true, fault.Busy) ∷ (false, fault.Locked) ∷ [] }
    ensures fewer_reasons { with_reasons
        ((true, cause.AtLimit) ∷ (false, cause.NotEnabled) ∷ []) (fault.Busy ∷ [])
        ≡ (true, fault.Busy) ∷ [] }
    ensures fewer_rows { with_reasons ((false, cause.AtLimit) ∷ []) (fault.Busy ∷ fault.Locked ∷ [])
        ≡ (false, fault.Busy) ∷ [] }
{}

/// A queue is not on: the phases of the device and of the queue, where there is one.
pub fn queues_that_are_not_on()
    ensures off { turned_away 0 Limited (Enqcmd 5) (take 3 causes_of_retry)
        ≡ Some (Some (NotEnabled On (Some Off))) }
    ensures not_there { turned_away 9 Limited (Enqcmd 5) [] ≡ Some (Some (NotEnabled On None)) }
    ensures stopping { turned_away 1 Limited Movdir64b (take 3 disable_of_one_queue_of_two)
        ≡ Some (Some (NotEnabled On (Some Stopping))) }
    ensures device_stopping { turned_away 0 Unlimited (Enqcmd 5) (take 2 disable_and_enable_again)
        ≡ Some (Some (NotEnabled Stopping (Some Stopping))) }
    ensures device_off { turned_away 0 Limited (Enqcmd 5) (take 5 abort_and_reset)
        ≡ Some (Some (NotEnabled Off (Some Off))) }
    ensures device_on_again { turned_away 0 Limited (Enqcmd 5) (take 7 disable_and_enable_again)
        ≡ Some (Some (NotEnabled On (Some Off))) }
    ensures before_the_kind { turned_away 1 Limited (Enqcmd 5) (take 3 disable_of_one_queue_of_two)
        ≡ Some (Some (NotEnabled On (Some Stopping))) }
{}

/// The instruction is not the one for the mode of the queue, whether or not it is full.
pub fn wrong_kinds()
    ensures dedicated { turned_away 1 Limited (Enqcmd 5) [] ≡ Some (Some (WrongKind true)) }
    ensures shared { turned_away 0 Limited Movdir64b [] ≡ Some (Some (WrongKind false)) }
    ensures dedicated_and_full { turned_away 1 Limited (Enqcmd 5) (take 2 dedicated_queue_overflows)
        ≡ Some (Some (WrongKind true)) }
    ensures shared_and_full { turned_away 0 Unlimited Movdir64b (take 5 two_portals)
        ≡ Some (Some (WrongKind false)) }
{}

/// A queue is at the limit of the portal: its threshold on the limited one, its size on the
/// unlimited one, and its size on both where it is dedicated.
pub fn limits()
    ensures threshold { turned_away 0 Limited (Enqcmd 5) (take 2 two_portals)
        ≡ Some (Some (AtLimit 2 2 Limited)) }
    ensures above_it { turned_away 0 Limited (Enqcmd 5) (take 5 two_portals)
        ≡ Some (Some (AtLimit 4 2 Limited)) }
    ensures size { turned_away 0 Unlimited (Enqcmd 5) (take 5 two_portals)
        ≡ Some (Some (AtLimit 4 4 Unlimited)) }
    ensures dedicated { turned_away 1 Limited Movdir64b (take 2 dedicated_queue_overflows)
        ≡ Some (Some (AtLimit 2 2 Limited)) }
    ensures one_taken { turned_away 0 Limited (Enqcmd 5) (take 7 two_portals)
        ≡ Some (Some (AtLimit 3 2 Limited)) }
{}

/// Nothing is against what is accepted.
pub fn accepted()
    ensures shared { turned_away 0 Limited (Enqcmd 5) [] ≡ Some None }
    ensures dedicated { turned_away 1 Unlimited Movdir64b [] ≡ Some None }
    ensures below_the_threshold { turned_away 0 Limited (Enqcmd 5) (take 1 two_portals)
        ≡ Some None }
    ensures below_the_size { turned_away 0 Unlimited (Enqcmd 5) (take 2 two_portals) ≡ Some None }
    ensures one_taken { turned_away 0 Unlimited (Enqcmd 5) (take 7 two_portals) ≡ Some None }
{}

/// By a reason a submission is turned away for its cause, and without one it is accepted.
pub fn submissions_by_reasons()
    ensures retry { told_after
        (λ s. (submit_by (intake_of s) 0 (Enqcmd 5) no_op (record { 0 = 9 })
        (Some (AtLimit 2 2 Limited))).0)
        []
        ≡ Some (Retry cause.AtLimit) }
    ensures dropped { told_after
        (λ s. (submit_by (intake_of s) 0 Movdir64b no_op (record { 0 = 9 })
        (Some (WrongKind false))).0)
        []
        ≡ Some (Dropped cause.WrongKind) }
    ensures accepted { told_after
        (λ s. (submit_by (intake_of s) 0 (Enqcmd 5) no_op (record { 0 = 9 }) None).0) []
        ≡ Some (Accepted (ticket 9 0)) }
{}

/// The causes that are answered.
pub fn causes()
    ensures { map cause_of (NotEnabled On None ∷ WrongKind true ∷ AtLimit 2 2 Limited ∷ [])
        ≡ cause.NotEnabled ∷ cause.WrongKind ∷ cause.AtLimit ∷ [] }
{}

/// Why a queue's configuration is not written: it is not there, it is not off, or its size would
/// change while the device is not off.
pub fn writes_of_queues()
    ensures not_there { unwritten_queue 2 shared_queue [] ≡ Some (Some (BadIndex 2)) }
    ensures on { unwritten_queue 0 shared_queue [] ≡ Some (Some (LockedQueue On)) }
    ensures on_before_its_size { unwritten_queue 0 (record shared_queue { size = 3 }) []
        ≡ Some (Some (LockedQueue On)) }
    ensures of_the_queue { unwritten_queue 1 dedicated_queue (take 3 disable_of_one_queue_of_two)
        ≡ Some (Some (LockedQueue Stopping)) }
    ensures of_three { write_queue_reason (opening_setup (record caps { queues = 3 })) 3
        shared_queue
        ≡ Some (BadIndex 3) }
    ensures stopping { unwritten_queue 0 shared_queue (take 3 disable_with_a_queue_that_is_off)
        ≡ Some (Some (LockedQueue Stopping)) }
    ensures size { unwritten_queue 1 (record dedicated_queue { size = 1 })
        (take 2 disable_with_a_queue_that_is_off) ≡ Some (Some (LockedSize On 2)) }
    ensures size_while_stopping { unwritten_queue 1 (record dedicated_queue { size = 1 })
        (take 3 disable_with_a_queue_that_is_off) ≡ Some (Some (LockedSize Stopping 2)) }
    ensures same_size { unwritten_queue 1 (record dedicated_queue { pasid = 8 })
        (take 3 disable_with_a_queue_that_is_off) ≡ Some None }
    ensures device_off { unwritten_queue 1 (record dedicated_queue { size = 1 })
        (take 11 disable_with_a_queue_that_is_off) ≡ Some None }
{}

/// Why a group's configuration is not written: it is not there, or the device is not off.
pub fn writes_of_groups()
    ensures not_there { unwritten_group 2 [] ≡ Some (Some (BadIndex 2)) }
    ensures on { unwritten_group 1 [] ≡ Some (Some (LockedGroup On)) }
    ensures stopping { unwritten_group 0 (take 3 disable_with_a_queue_that_is_off)
        ≡ Some (Some (LockedGroup Stopping)) }
    ensures off { unwritten_group 0 (take 11 disable_with_a_queue_that_is_off) ≡ Some None }
    ensures not_there_while_off { unwritten_group 2 (take 11 disable_with_a_queue_that_is_off)
        ≡ Some (Some (BadIndex 2)) }
    ensures of_three { write_group_reason (opening_setup (record caps { groups = 3 })) 3
        ≡ Some (BadIndex 3) }
    ensures faults { map fault_of_write
        (BadIndex 2 ∷ LockedQueue On ∷ LockedSize On 2 ∷ LockedGroup On ∷ [])
        ≡ fault.BadIndex ∷ fault.Locked ∷ fault.Locked ∷ fault.Locked ∷ [] }
{}

/// By a reason a write is refused and changes nothing, and without one it is done.
pub fn writes_by_reasons()
    ensures refused { write_by (opening_setup caps) (record (opening_setup caps) { next_name = 7 })
        (Some (LockedGroup On))
        ≡ (Refused fault.Locked, opening_setup caps) }
    ensures written { write_by (opening_setup caps)
        (record (opening_setup caps) { next_name = 7 }) None
        ≡ (Written, record (opening_setup caps) { next_name = 7 }) }
{}

/// An error is cleared where one is noted.
pub fn clears()
    ensures none { told_after (λ s. clear_reason s.work.setup.noted) [] ≡ Some (Some NothingNoted) }
    ensures noted { told_after (λ s. clear_reason s.work.setup.noted)
        (take 3 dedicated_queue_overflows)
        ≡ Some None }
    ensures cleared { told_after (λ s. clear_reason s.work.setup.noted)
        (take 5 dedicated_queue_overflows)
        ≡ Some (Some NothingNoted) }
{}
