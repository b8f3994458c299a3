//! What reasons and their words are made of, each piece alone.

ghost use Rattle.std.specs.Prelude.{◌≡◌, [], ◌∷◌, Some, None, true, false, codes, map, replicate};
ghost use Rattle.dsa_base.specs.Rows.{first_row};
ghost use Rattle.dsa_desc.specs.Descriptor.{need};
ghost use Rattle.dsa_regs.specs.declared.layout.ListUse.TheVariants.{Progress};
ghost use Rattle.dsa_regs.specs.declared.reasons.CheckReason.TheVariants.{ReservedTooMany};
ghost use Rattle.dsa_book.specs.State.{opening};
ghost use Rattle.dsa_book.specs.declared.answer.Cause.TheVariants.{AtLimit, WrongKind};
ghost use Rattle.dsa_book.specs.declared.answer.SubmitAnswer.TheVariants.{Dropped, Retry};
ghost use Rattle.dsa_book.specs.declared.event.Event.TheVariants.{WriteGroup, WriteQueue};
ghost use Rattle.dsa_book.specs.declared.event.Kind.TheVariants.{Enqcmd, Movdir64b};
ghost use Rattle.dsa_book.specs.declared.fate.Fate.TheVariants.{Abandoned, Aborted, Completed};
ghost use Rattle.dsa_cells.specs.Invariant.{place_by_owner};
ghost use Rattle.dsa_device.specs.Made.{is_store_of};
ghost use Rattle.dsa_engines.specs.Batch.{block_of_group, is_failed_in, told_as};
ghost use Rattle.dsa_engines.specs.Dispatch.{block_table};
ghost use Rattle.dsa_engines.specs.Finish.{entry_reason, is_list_of};
ghost use Rattle.dsa_engines.specs.declared.reasons.FinishReason.TheVariants.{Elsewhere, OtherName};
ghost use Rattle.dsa_engines.specs.declared.reasons.QueueReason.TheVariants as queue;
ghost use Rattle.dsa_engines.specs.declared.reasons.StartReason.TheVariants as start;
ghost use Rattle.dsa_laws.specs.Refusals.{refusal_by};
ghost use Rattle.dsa_explain.specs.Done.{failure_of, members_failed, status_of_fate, status_reason};
ghost use Rattle.dsa_explain.specs.declared.done.DoneReason.TheVariants as done;
ghost use Rattle.dsa_explain_lines.specs.Parts.{event_part, queue_keeping, start_keeping};
ghost use Rattle.dsa_explain_lines.specs.Sentences.{check_sentence, fetched_words};
ghost use Rattle.dsa_worked.specs.Lawful.{batch_three, member_of_three, note_of_three, that_waits, work_on_batch};
ghost use Rattle.dsa_worked.specs.Setup.{no_op, row};
ghost use Rattle.dsa_worked.specs.Uneven.{many_engines, many_queues, of_these, small_queue};
ghost use Rattle.dsa_explain_rows.specs.After.{of_three_groups};
ghost use Rattle.dsa_explain_rows.specs.Tables.{batch_seven, drain_three, two_groups, want_in_two_groups, unlike_want, with_failures, FencesWaitFor, IsToldAlone};

/// ENQCMD is answered Retry, and MOVDIR64B is dropped.
pub fn refusals()
    ensures enqcmd { refusal_by (Enqcmd 5) AtLimit ≡ Retry AtLimit }
    ensures movdir { refusal_by Movdir64b WrongKind ≡ Dropped WrongKind }
{}

/// A No-op needs no read buffers, whatever its size.
pub fn needs()
    ensures no_op { need (record no_op { size = 4096 })
        (record { max_batch_shift = 4; max_xfer_shift = 20 }) false
        ≡ 0 }
{}

/// The row of a member of another batch is of no member that failed in this one.
pub fn failures()
    ensures of_this { is_failed_in 3 (row 7 (Some 3) (Completed 3)) ≡ true }
    ensures of_another { is_failed_in 3 (row 7 (Some 2) (Completed 3)) ≡ false }
    ensures of_none { is_failed_in 3 (row 7 None (Completed 3)) ≡ false }
{}

/// The reason of each status, with the numbers of the entry, of its queue and of its batch.
pub fn statuses()
    ensures success { map (status_reason with_failures batch_seven) (0x01 ∷ 0x15 ∷ [])
        ≡ None ∷ None ∷ [] }
    ensures fault { status_reason with_failures batch_seven 0x03 ≡ Some done.PageFault }
    ensures members { status_reason with_failures batch_seven 0x05
        ≡ Some (done.MembersFailed 8 0x13 1) }
    ensures operation { status_reason with_failures batch_seven 0x10
        ≡ Some (done.NotSupported 0x01) }
    ensures fence { status_reason with_failures batch_seven 0x11 ≡ Some done.FenceOutside }
    ensures size { status_reason with_failures batch_seven 0x13 ≡ Some (done.SizeOutside 9 3 2) }
    ensures count { status_reason with_failures batch_seven 0x14 ≡ Some (done.CountOutside 9 1 2) }
    ensures forgotten { members_failed with_failures 5 ≡ done.FailureForgotten }
    ensures failed { failure_of 4 (Some (row 8 (Some 7) (Completed 0x13)))
        ≡ done.MembersFailed 8 0x13 4 }
    ensures unended { map status_of_fate (Aborted 4 ∷ Abandoned ∷ []) ≡ 0 ∷ 0 ∷ [] }
{}

/// A member that lacks read buffers is told of them, or that its engine is of no group.
pub fn starts()
    ensures no_group { told_as (work_on_batch None [] []) two_groups 0 (block_of_group 4 None)
        ≡ start.NoGroup }
    ensures group { told_as (work_on_batch None [] []) two_groups 0 (block_of_group 4 (Some 1))
        ≡ start.NoBuffers want_in_two_groups }
{}

/// No block but that of an engine of no group is told as that, and each fence is told with the
/// first member, whatever member it is.
pub fn blocks()
    ensures no_group_alone { IsToldAlone (told_as (work_on_batch None [] []) two_groups 0)
        (block_of_group 4 None) }
    ensures first_member { FencesWaitFor
        (told_as (work_on_batch None [] (member_of_three true ∷ [])) two_groups 0) 5 }
{}

/// What keeps an engine from taking a front: read buffers that do not fit, a batch beside a batch,
/// and a Drain beside a Drain.
pub fn takes()
    ensures batch_beside_a_batch { map (λ row. row.0) (block_table
        (work_on_batch (Some note_of_three) (batch_three ∷ []) []) 0 true batch_three.1)
        ≡ false ∷ true ∷ false ∷ [] }
    ensures batch_alone { map (λ row. row.0)
        (block_table (work_on_batch None [] []) 0 false batch_three.1)
        ≡ true ∷ false ∷ false ∷ [] }
    ensures no_op_beside_a_batch { map (λ row. row.0) (block_table
        (work_on_batch (Some note_of_three) (batch_three ∷ []) []) 0 true that_waits.1)
        ≡ false ∷ false ∷ false ∷ [] }
    ensures drain_beside_a_drain { map (λ row. row.0)
        (block_table (work_on_batch None (drain_three ∷ []) []) 0 true drain_three.1)
        ≡ false ∷ false ∷ true ∷ [] }
    ensures no_op_beside_a_drain { map (λ row. row.0)
        (block_table (work_on_batch None (drain_three ∷ []) []) 0 true that_waits.1)
        ≡ false ∷ false ∷ false ∷ [] }
    ensures drain_alone { map (λ row. row.0)
        (block_table (work_on_batch None [] []) 0 true drain_three.1)
        ≡ false ∷ false ∷ false ∷ [] }
    ensures batch_is_no_drain { ¬ (first_row (block_table
        (work_on_batch (Some note_of_three) (batch_three ∷ []) []) 0 true batch_three.1)
        ≡ first_row (block_table (work_on_batch None (drain_three ∷ []) []) 0 true drain_three.1)) }
{}

/// An entry of another name or in another engine's list is not the engine's to end, whatever it
/// waits for.
pub fn ends()
    ensures of_another_engine { is_list_of 0 (Progress 1) ≡ false }
    ensures later_name { entry_reason (work_on_batch None [] []) 0 2 (Some batch_three.1)
        (Some (Progress 0))
        ≡ Some (OtherName 3) }
    ensures earlier_name { entry_reason (work_on_batch None [] []) 0 4 (Some batch_three.1)
        (Some (Progress 0))
        ≡ Some (OtherName 3) }
    ensures elsewhere_first { entry_reason
        (work_on_batch (Some note_of_three) (batch_three ∷ []) (member_of_three true ∷ []))
        0 3 (Some batch_three.1) (Some (Progress 1))
        ≡ Some (Elsewhere (Progress 1)) }
{}

/// A store with a list or a cell too many is not the device's, and a cell is at the list whose
/// number it bears.
#[tactic(auto, unfolding(dsa_store::specs::Content::held_count))]
pub fn stores()
    ensures list_too_many { is_store_of many_queues 23 (replicate 10 []) ≡ false }
    ensures cell_too_many { is_store_of many_queues 24 (replicate 9 []) ≡ false }
    ensures owned { place_by_owner (5 ∷ []) 5 0 ≡ 1 }
    ensures owned_by_another { place_by_owner (5 ∷ []) 4 0 ≡ 0 }
{}

/// The groups that read buffers are kept for are told of the group of the want.
#[tactic(auto, unfolding(dsa_scenario::specs::Worked::digits_on_literals))]
pub fn kept_for_others()
    ensures queue { of_three_groups (λ w. queue_keeping w (queue.NoBuffers unlike_want)) []
        ≡ Some (codes ", 4 for group 0, 4 for group 2") }
    ensures member { of_three_groups (λ w. start_keeping w (start.NoBuffers unlike_want)) []
        ≡ Some (codes ", 4 for group 0, 4 for group 2") }
{}

/// What is one is told as one.
#[tactic(auto, unfolding(dsa_scenario::specs::Worked::digits_on_literals))]
pub fn one_of_each()
    ensures queue { event_part (opening many_engines) (WriteQueue 1 small_queue)
        ≡ codes ": the device has 1 queue" }
    ensures group { event_part (opening many_engines) (WriteGroup 1 (of_these 1 1))
        ≡ codes ": the device has 1 group" }
    ensures member { fetched_words 0 1 1 ≡ codes "e0 has fetched 1 of 1 member" }
    ensures read_buffer { check_sentence (ReservedTooMany 1 0)
        ≡ codes "the groups reserve 1 read buffer, of 0" }
{}
