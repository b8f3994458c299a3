//! What a line tells behind an answer, in worked histories.

ghost use Rattle.std.specs.Prelude.{◌≡◌, [], ◌∷◌, Some, None, Ok, Err, codes, decimal, map, take};
ghost use Rattle.dsa_regs.specs.Worked.{caps, dedicated_queue, first_group, second_group, shared_queue};
ghost use Rattle.dsa_regs.specs.declared.Command.TheVariants.{AbortAll, AbortPasid, DisableDevice, DrainAll, DrainPasid, DrainWq, EnableDevice, EnableWq, ResetWq};
ghost use Rattle.dsa_regs.specs.declared.Fault.TheVariants.{BadIndex, Busy, Locked};
ghost use Rattle.dsa_regs.specs.declared.Scope.TheVariants.{Device, Pasid, Queue};
ghost use Rattle.dsa_regs.specs.declared.layout.ListUse.TheVariants as list;
ghost use Rattle.dsa_book.specs.declared.answer.ClearAnswer.TheVariants as clear;
ghost use Rattle.dsa_book.specs.declared.answer.DispatchAnswer.TheVariants.{Idle};
ghost use Rattle.dsa_book.specs.declared.answer.FetchAnswer.TheVariants.{AllFetched};
ghost use Rattle.dsa_book.specs.declared.answer.FinishAnswer.TheVariants.{Gone};
ghost use Rattle.dsa_book.specs.declared.answer.IssueAnswer.TheVariants as issue;
ghost use Rattle.dsa_book.specs.declared.answer.PollAnswer.TheVariants as poll;
ghost use Rattle.dsa_book.specs.declared.answer.StartAnswer.TheVariants.{Abandoned, FenceWait};
ghost use Rattle.dsa_book.specs.declared.answer.SubmitAnswer.TheVariants.{Dropped, Retry};
ghost use Rattle.dsa_book.specs.declared.answer.WriteAnswer.TheVariants as write;
ghost use Rattle.dsa_book.specs.declared.answer.Cause.TheVariants.{AtLimit, WrongKind};
ghost use Rattle.dsa_book.specs.declared.event.Event.TheVariants as event;
ghost use Rattle.dsa_book.specs.declared.event.Kind.TheVariants.{Enqcmd};
ghost use Rattle.dsa_book.specs.declared.event.Portal.TheVariants.{Limited};
ghost use Rattle.dsa_device.specs.Running.{running_at_first};
ghost use Rattle.dsa_worked.specs.Setup.{batch, cleared, configured, dispatched, enqcmd, enqcmd_unlimited, faulted, fenced, step_of_a_fetch, finished, step_of_a_group_write, issued, masked, movdir, move, no_op, polled, step_of_a_queue_write, started, ticket, to_shared, written};
ghost use Rattle.dsa_worked.specs.Answers.{one_of_two_queues_waits, slots_are_full};
ghost use Rattle.dsa_worked.specs.Batches.{buffers_of_a_batch, buffers_reserved_for_another, fence_waits};
ghost use Rattle.dsa_worked.specs.Commands.{abort_of_a_pasid, drain_of_a_queue, old_ticket_is_gone, refused_enables_and_writes};
ghost use Rattle.dsa_worked.specs.Members.{abort_of_all_lists, fence_before_buffers, three_are_abandoned};
ghost use Rattle.dsa_worked.specs.Phases.{disable_with_a_queue_that_is_off};
ghost use Rattle.dsa_worked.specs.Submissions.{dedicated_queue_overflows, forged_tickets, two_portals};
ghost use Rattle.dsa_regs.specs.declared.Deed.TheVariants.{Disable, Enable};
ghost use Rattle.dsa_regs.specs.declared.reasons.CheckReason.TheVariants as check;
ghost use Rattle.dsa_admin.specs.Command.{found_by_check};
ghost use Rattle.dsa_scenario.specs.Worked.{bad_word};
ghost use Rattle.dsa_explain_lines.specs.Parts.{dispatch_part, full_part, issue_part, joint, keeping_part, lists_part, names_part, part_of, queue_part, room_part, start_part, told_of, word_part};
ghost use Rattle.dsa_explain_rows.specs.After.{of_three_groups, of_two_queues, told_after, told_from_first, with_few_buffers};
ghost use Rattle.dsa_explain_rows.specs.Histories.{batch_of_the_second_group, two_members_fail};
ghost use Rattle.dsa_explain_rows.specs.Parts.{setup_of, told, told_at_end, idle_with_two_queues};

/// A reason stands behind its mark, and nothing where there is none.
#[tactic(auto, unfolding(dsa_scenario::specs::Worked::digits_on_literals))]
pub fn marks()
    ensures reason { told_of decimal (Some 12) ≡ codes ": 12" }
    ensures none { told_of decimal None ≡ [] }
{}

/// The groups that read buffers are kept for, but for the group itself and those that nothing is
/// kept for.
#[tactic(auto, unfolding(dsa_scenario::specs::Worked::digits_on_literals))]
pub fn keeping()
    ensures first { of_three_groups (λ w. keeping_part w 0) []
        ≡ Some (codes ", 4 for group 1, 4 for group 2") }
    ensures second { of_three_groups (λ w. keeping_part w 1) []
        ≡ Some (codes ", 4 for group 0, 4 for group 2") }
    ensures used { of_three_groups (λ w. keeping_part w 1) (take 8 buffers_reserved_for_another)
        ≡ Some (codes ", 4 for group 2") }
    ensures none { of_three_groups (λ w. keeping_part w 2) (take 8 buffers_reserved_for_another)
        ≡ Some [] }
{}

/// The reasons of an idle engine's queues, in ascending order, the first behind the mark; none of
/// what could be taken.
#[tactic(auto, unfolding(dsa_scenario::specs::Worked::digits_on_literals))]
pub fn dispatches()
    ensures no_engine { idle_with_two_queues 3 [] ≡ Some (codes ": the device has no e3") }
    ensures no_group { idle_with_two_queues 2 [] ≡ Some (codes ": e2 is of no group") }
    ensures no_queue { told_from_first (λ s. dispatch_part s.work 1)
        (configured shared_queue dedicated_queue first_group (record second_group { queues = 0 }))
        ≡ Some (codes ": e1 is of a group without a queue") }
    ensures missing_queue { told_from_first (λ s. dispatch_part s.work 1)
        (configured shared_queue dedicated_queue first_group (record second_group { queues = 4 }))
        ≡ Some (codes ": e1 is of a group without a queue") }
    ensures one { idle_with_two_queues 1 [] ≡ Some (codes ": q2 is empty") }
    ensures two { idle_with_two_queues 0 [] ≡ Some (codes ": q0 is empty; q1 is empty") }
    ensures front { idle_with_two_queues 0 (take 3 one_of_two_queues_waits)
        ≡ Some (codes ": q0's front 1 is a batch, and the engine works on batch 0; q1 is empty") }
    ensures one_to_take { idle_with_two_queues 0 (take 1 one_of_two_queues_waits)
        ≡ Some (codes ": q1 is empty") }
    ensures second_to_take { of_two_queues (λ w. queue_part w 0 1) one_of_two_queues_waits
        ≡ Some [] }
    ensures joints { of_two_queues (λ w. map (joint w 0) (0 ∷ 1 ∷ [])) []
        ≡ Some (codes ": " ∷ codes "; " ∷ []) }
    ensures no_joint { of_two_queues (λ w. map (joint w 0) (0 ∷ 1 ∷ []))
        (take 1 one_of_two_queues_waits)
        ≡ Some (codes ": " ∷ codes ": " ∷ []) }
    ensures kept { of_three_groups (λ w. dispatch_part w 1) (take 8 buffers_reserved_for_another)
        ≡ Some (codes ": q1's front 3 needs 4 read buffers, group 1 uses 4 of 8, all groups use 12 of 16, and 4 are kept, 4 for group 2") }
    ensures kept_for_the_first { told batch_of_the_second_group (dispatched 1 Idle)
        ≡ Some (codes ": q1's front 5 needs 4 read buffers, group 1 uses 12 of 12, all groups use 12 of 16, and 4 are kept, 4 for group 0") }
    ensures none_kept { told (take 15 buffers_of_a_batch) (dispatched 0 Idle)
        ≡ Some (codes ": q0's front 6 needs 4 read buffers, group 0 uses 4 of 8, all groups use 16 of 16, and 0 are kept") }
    ensures slots { told (take 6 slots_are_full) (dispatched 0 Idle)
        ≡ Some (codes ": q0's front 3 waits for a slot, of which 2 of 2 are in use") }
{}

/// A member that does not start.
#[tactic(auto, unfolding(dsa_scenario::specs::Worked::digits_on_literals))]
pub fn starts()
    ensures fence { told (take 8 fence_waits) (started 0 FenceWait)
        ≡ Some (codes ": member 3 has a fence, and waits for 1") }
    ensures abandoned { told (take 8 three_are_abandoned) (started 0 (Abandoned 3))
        ≡ Some (codes ": member 2 has a fence, member 1 before it failed, and 3 end unstarted") }
    ensures kept { with_few_buffers (λ w. start_part w 0) (take 9 fence_before_buffers)
        ≡ Some (codes ": the member needs 4 read buffers, group 0 uses 4 of 4, all groups use 4 of 16, and 8 are kept, 8 for group 1") }
    ensures kept_for_the_first { told batch_of_the_second_group (started 1 FenceWait)
        ≡ Some (codes ": the member needs 4 read buffers, group 1 uses 12 of 12, all groups use 12 of 16, and 4 are kept, 4 for group 0") }
    ensures none_on_the_other { told (take 8 fence_waits) (started 1 FenceWait)
        ≡ Some (codes ": no member waits on e1") }
    ensures no_engine { told (take 8 fence_waits) (started 2 FenceWait)
        ≡ Some (codes ": the device has no e2") }
    ensures starts { told (take 12 fence_waits) (started 0 FenceWait) ≡ Some [] }
{}

/// What the check of a command would find, of the device or of a queue.
pub fn checks()
    ensures device { found_by_check
        (setup_of (configured shared_queue dedicated_queue first_group
        (record second_group { engines = 0 })))
        Enable Device
        ≡ Some (check.GroupWithoutEngine 1) }
    ensures sizes { found_by_check
        (setup_of (configured (record shared_queue { size = 7 }) dedicated_queue first_group
        second_group))
        Enable Device
        ≡ Some (check.SizesTooLarge 9 8) }
    ensures queue { found_by_check
        (setup_of (configured (record shared_queue { priority = 16 }) dedicated_queue
        first_group second_group))
        Enable (Queue 0)
        ≡ Some (check.PriorityTooLarge 0 16) }
    ensures other_queue { found_by_check
        (setup_of (configured (record shared_queue { priority = 16 }) dedicated_queue
        first_group second_group))
        Enable (Queue 1)
        ≡ None }
    ensures no_enable { found_by_check (setup_of []) Disable Device ≡ None }
    ensures pasid { found_by_check (setup_of []) Enable (Pasid 5) ≡ None }
{}

/// The names, list by list; the first list follows the mark.
#[tactic(auto, unfolding(dsa_scenario::specs::Worked::digits_on_literals))]
pub fn lists()
    ensures two { lists_part (codes " loses ") (codes ": ")
        ((list.Queue 0, 4 ∷ 7 ∷ []) ∷ (list.Progress 1, 2 ∷ []) ∷ [])
        ≡ codes ": q0 loses 4, 7; e1 loses 2" }
    ensures three { lists_part (codes ": ") (codes ", ")
        ((list.Queue 0, 4 ∷ []) ∷ (list.Queue 1, 5 ∷ []) ∷ (list.Members 0, 6 ∷ []) ∷ [])
        ≡ codes ", q0: 4; q1: 5; batch of e0: 6" }
    ensures none { lists_part (codes " loses ") (codes ": ") [] ≡ [] }
{}

/// A command that is carried out: what it removes, what it waits for, or nothing.
#[tactic(auto, unfolding(dsa_scenario::specs::Worked::digits_on_literals))]
pub fn deeds()
    ensures abort { told_after (λ s. issue_part s AbortAll) (take 8 abort_of_all_lists)
        ≡ Some (codes
        ": q0 loses 5; q1 loses 4; e0 loses 0; e1 loses 2; batch of e0 loses 1; batch of e1 loses 3") }
    ensures of_a_pasid { told_after (λ s. issue_part s (AbortPasid 5)) (take 4 abort_of_a_pasid)
        ≡ Some (codes ": q0 loses 0, 2") }
    ensures reset { told_after (λ s. issue_part s (ResetWq (masked 2))) (take 8 abort_of_all_lists)
        ≡ Some (codes ": q1 loses 4; e1 loses 2; batch of e1 loses 3") }
    ensures abort_of_nothing { told_after (λ s. issue_part s AbortAll) [] ≡ Some [] }
    ensures drain { told_after (λ s. issue_part s (DrainWq (masked 1))) (take 1 drain_of_a_queue)
        ≡ Some (codes ": the command waits for 1 entry, q0: 0") }
    ensures drain_without_members { told_after (λ s. issue_part s DrainAll)
        (take 8 abort_of_all_lists)
        ≡ Some (codes ": the command waits for 4 entries, q0: 5; q1: 4; e0: 0; e1: 2") }
    ensures drain_of_a_pasid { told_after (λ s. issue_part s (DrainPasid 5))
        (take 4 abort_of_a_pasid)
        ≡ Some (codes ": the command waits for 2 entries, q0: 0, 2") }
    ensures disable { told_after (λ s. issue_part s DisableDevice) (take 8 abort_of_all_lists)
        ≡ Some (codes
        ": the command waits for 6 entries, q0: 5; q1: 4; e0: 0; e1: 2; batch of e0: 1; batch of e1: 3") }
    ensures drain_of_nothing { told_after (λ s. issue_part s DrainAll) [] ≡ Some [] }
    ensures enable { told_from_first (λ s. issue_part s EnableDevice)
        (configured shared_queue dedicated_queue first_group second_group)
        ≡ Some [] }
{}

/// A command that is refused removes nothing, whatever it would.
#[tactic(auto, unfolding(dsa_scenario::specs::Worked::digits_on_literals))]
pub fn refusals()
    ensures busy { told_after (λ s. issue_part s AbortAll) (take 4 drain_of_a_queue)
        ≡ Some (codes ": drain-wq 0x1 is active, and waits for 1 entry, first for 0 in q0") }
    ensures missing { told_after (λ s. issue_part s (EnableWq 9)) []
        ≡ Some (codes ": the device has no q9") }
    ensures phase { told_from_first (λ s. issue_part s AbortAll) []
        ≡ Some (codes ": the device is off") }
    ensures device { told_from_first (λ s. issue_part s EnableDevice)
        (configured shared_queue dedicated_queue first_group
        (record second_group { engines = 3 }))
        ≡ Some (codes ": e0 is in group 0 and in group 1") }
    ensures queue { told_after (λ s. issue_part s (EnableWq 0)) (take 4 refused_enables_and_writes)
        ≡ Some (codes ": the threshold of q0 is 5, above its size of 4") }
{}

/// An end of an entry that is gone, of a name that none has, and by a ticket with another cell.
#[tactic(auto, unfolding(dsa_scenario::specs::Worked::digits_on_literals))]
pub fn gone()
    ensures completed { told old_ticket_is_gone (finished 0 (ticket 0 1) Gone)
        ≡ Some (codes ": 1 has completed") }
    ensures aborted { told (take 3 old_ticket_is_gone) (finished 0 (ticket 0 0) Gone)
        ≡ Some (codes ": 0 was aborted by abort-all") }
    ensures abandoned { told (take 9 three_are_abandoned) (finished 0 (ticket 4 4) Gone)
        ≡ Some (codes ": 4 was abandoned") }
    ensures unnamed { told (take 3 forged_tickets) (finished 0 (ticket 0 1) Gone)
        ≡ Some (codes ": no entry has the name 1") }
    ensures unnamed_elsewhere { told [] (finished 1 (ticket 3 0) Gone)
        ≡ Some (codes ": no entry has the name 0") }
    ensures free_cell { told (take 3 forged_tickets) (finished 0 (ticket 1 0) Gone)
        ≡ Some (codes ": the cell of the ticket holds no entry") }
    ensures later_are_gone { told two_members_fail (finished 0 (ticket 1 0) Gone)
        ≡ Some (codes ": the cell of the ticket holds no entry") }
    ensures other_cell { told (take 2 abort_of_a_pasid) (finished 0 (ticket 0 1) Gone)
        ≡ Some (codes ": the cell of the ticket holds 0 by now") }
    ensures no_engine { told (take 3 old_ticket_is_gone) (finished 2 (ticket 0 0) Gone)
        ≡ Some (codes ": the device has no e2") }
{}

/// An end without success, by its status, and with success.
#[tactic(auto, unfolding(dsa_scenario::specs::Worked::digits_on_literals))]
pub fn failures()
    ensures success { map told_at_end (no_op ∷ move 1048576 ∷ []) ≡ Some [] ∷ Some [] ∷ [] }
    ensures operation { told_at_end (record no_op { op = 0x46 })
        ≡ Some (codes ": operation 0x46 is not supported") }
    ensures fence { told_at_end (fenced no_op) ≡ Some (codes ": a fence outside a batch") }
    ensures sizes { map told_at_end (move 0 ∷ move 1048577 ∷ [])
        ≡ Some (codes ": size 0 is below 1")
        ∷ Some (codes ": size 1048577 is above 1048576, the transfer limit of q0") ∷ [] }
    ensures counts { map told_at_end (batch 1 ∷ batch 9 ∷ [])
        ≡ Some (codes ": count 1 is below 2")
        ∷ Some (codes ": count 9 is above 8, the batch limit of q0") ∷ [] }
    ensures fault { told (take 7 three_are_abandoned) (faulted 0 (ticket 1 1) Gone)
        ≡ Some (codes ": page fault") }
    ensures no_transfer { told (take 8 two_members_fail) (faulted 0 (ticket 3 3) Gone)
        ≡ Some [] }
    ensures member { told (take 8 two_members_fail) (finished 0 (ticket 2 2) Gone)
        ≡ Some (codes ": batch is not supported in a batch") }
    ensures member_of_a_failed_batch { told (take 9 two_members_fail) (finished 0 (ticket 3 3) Gone)
        ≡ Some [] }
    ensures one_failed { told (take 11 three_are_abandoned) (finished 0 (ticket 0 0) Gone)
        ≡ Some (codes ": member 1 ended with 03") }
    ensures two_failed { told two_members_fail (finished 0 (ticket 0 0) Gone)
        ≡ Some (codes ": member 1 ended with 13, the first of 2") }
    ensures none_failed { told (take 15 fence_waits) (finished 0 (ticket 0 0) Gone) ≡ Some [] }
{}

/// Each other event.
#[tactic(auto, unfolding(dsa_scenario::specs::Worked::digits_on_literals))]
pub fn events()
    ensures submit { told (take 2 two_portals) (enqcmd no_op (Retry AtLimit))
        ≡ Some (codes ": q0 holds 2 entries, and the limited portal goes up to 2") }
    ensures unlimited { told (take 5 two_portals) (enqcmd_unlimited 5 no_op (Retry AtLimit))
        ≡ Some (codes ": q0 holds 4 entries, and the unlimited portal goes up to 4") }
    ensures kind { told [] (written 1 Limited (Enqcmd 5) no_op (Retry WrongKind))
        ≡ Some (codes ": q1 is dedicated, and takes movdir") }
    ensures dropped { told (take 2 dedicated_queue_overflows) (movdir no_op (Dropped AtLimit))
        ≡ Some (codes ": q1 holds 2 entries, and the limited portal goes up to 2") }
    ensures accepted { told [] (to_shared no_op 0 0) ≡ Some [] }
    ensures fetch { told (take 5 fence_waits) (step_of_a_fetch 0 no_op AllFetched)
        ≡ Some (codes ": e0 has fetched 3 of 3 members") }
    ensures fetch_on_the_other { told (take 5 fence_waits) (step_of_a_fetch 1 no_op AllFetched)
        ≡ Some (codes ": e1 works on no batch") }
    ensures finish_on_the_other { told (take 3 forged_tickets) (finished 1 (ticket 0 0) Gone)
        ≡ Some (codes ": the entry stands in e0") }
    ensures finish { told (take 5 old_ticket_is_gone) (finished 0 (ticket 0 0) Gone)
        ≡ Some (codes ": 0 was aborted by abort-all") }
    ensures poll { told (take 4 drain_of_a_queue) (polled poll.Active)
        ≡ Some (codes ": the command waits for 1 entry, first for 0 in q0") }
    ensures queue { told [] (step_of_a_queue_write 2 shared_queue (write.Refused BadIndex))
        ≡ Some (codes ": the device has 2 queues") }
    ensures size { told (take 2 disable_with_a_queue_that_is_off)
        (step_of_a_queue_write 1 (record dedicated_queue { size = 1 }) (write.Refused Locked))
        ≡ Some (codes ": the device is on, and the size stays 2") }
    ensures same_size { told (take 2 disable_with_a_queue_that_is_off)
        (step_of_a_queue_write 1 dedicated_queue write.Written)
        ≡ Some [] }
    ensures locked_group { told [] (step_of_a_group_write 1 first_group (write.Refused Locked))
        ≡ Some (codes ": the device is on") }
    ensures group { told [] (step_of_a_group_write 2 first_group (write.Refused BadIndex))
        ≡ Some (codes ": the device has 2 groups") }
    ensures clear { told [] (cleared clear.Nothing) ≡ Some (codes ": no error is noted") }
    ensures issue { told (take 4 drain_of_a_queue) (issued DrainAll (issue.Refused Busy))
        ≡ Some (codes ": drain-wq 0x1 is active, and waits for 1 entry, first for 0 in q0") }
{}

/// A history without room comes before all else that is asked of a device, and a word that is no
/// command before that.
#[tactic(auto, unfolding(dsa_scenario::specs::Worked::digits_on_literals))]
pub fn of_any()
    ensures room { room_part 12 ≡ codes ": the history has room for 12 steps" }
    ensures room_for_one { room_part 1 ≡ codes ": the history has room for 1 step" }
    ensures full { part_of (running_at_first caps 0) (Ok event.Poll)
        ≡ codes ": the history has room for 0 steps" }
    ensures no_names { part_of (record (running_at_first caps 9) { capacity = 0 }) (Ok event.Poll)
        ≡ codes ": the history has room for 0 steps, as many as names were left" }
    ensures last_name { full_part (record (running_at_first caps 9) { capacity = 1 })
        ≡ codes ": the history has room for 1 step, as many as names were left" }
    ensures names_for_all { names_part (running_at_first caps 9) ≡ [] }
    ensures poll { part_of (running_at_first caps 1) (Ok event.Poll)
        ≡ codes ": no command is active" }
    ensures word { part_of (running_at_first caps 1) (Err (bad_word 0x1f00005))
        ≡ codes ": no command has the number 31, with 0 in bits 30:25" }
    ensures word_with_bit_31 { part_of (running_at_first caps 1) (Err (bad_word 0x82100000))
        ≡ codes ": no command has the number 1, with 1 in bits 30:25" }
    ensures largest_word { word_part 0xffffffff
        ≡ codes ": no command has the number 31, with 63 in bits 30:25" }
    ensures word_without_room { part_of (running_at_first caps 0) (Err (bad_word 0))
        ≡ codes ": no command has the number 0, with 0 in bits 30:25" }
{}
