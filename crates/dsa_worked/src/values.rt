//! Single definitions at chosen values: names and numbers, descriptors as bytes, whether two
//! answers are the same, what a program sees, whose a step is, choices, and lists of cells.

ghost use Rattle.std.specs.Prelude.{◌≡◌, ◌+◌, ◌^◌, ◌++◌, [], ◌∷◌, Some, None, true, false, map, codes, take, replicate};
ghost use Rattle.dsa_desc.specs.declared.Outcome.TheVariants.{Success};
ghost use Rattle.dsa_desc.specs.declared.opcode.Operation.{Operation};
ghost use Rattle.dsa_desc.specs.Descriptor.{as_written, bytes_of, row_of};
ghost use Rattle.dsa_desc.specs.Text.{operation_name, operation_text, size_label, line_of_descriptor};
ghost use Rattle.dsa_regs.specs.declared.Command.TheVariants.{EnableDevice, DisableDevice, DrainAll, AbortAll, ResetDevice, EnableWq, DisableWq, DrainWq, AbortWq, ResetWq, DrainPasid, AbortPasid};
ghost use Rattle.dsa_regs.specs.declared.Fault.TheVariants.{SizeZero, PriorityZero, PriorityTooLarge, ThresholdZero, ThresholdAboveSize, BatchTooLarge, TransferTooLarge, NoGroup, BadIndex, BadCommand, BadQueue, Locked, WrongState, Busy};
ghost use Rattle.dsa_regs.specs.declared.Phase.TheVariants.{Off};
ghost use Rattle.dsa_regs.specs.Command.{command_name};
ghost use Rattle.dsa_regs.specs.Fault.{fault_number, fault_name};
ghost use Rattle.dsa_regs.specs.Config.{zero_queue, zero_group, check_queue_reason};
ghost use Rattle.dsa_regs.specs.Buffers.{covered_count};
ghost use Rattle.dsa_regs.specs.declared.reasons.CheckReason.TheVariants.{BatchTooLarge};
ghost use Rattle.dsa_regs.specs.Worked.{caps, groups, shared_queue, first_group};
ghost use Rattle.dsa_store.specs.Content.{entry_of, list_of_cell, first_cell, cell_after, next_of, after_move, after_set, after_give_back};
ghost use Rattle.dsa_store.specs.Plain.{spare};
ghost use Rattle.dsa_store.specs.Walk.{from_cell, entries_from};
ghost use Rattle.dsa_book.specs.declared.answer.Cause.TheVariants.{AtLimit, NotEnabled, WrongKind};
ghost use Rattle.dsa_book.specs.declared.answer.SubmitAnswer.TheVariants.{Accepted, Retry, Dropped, Full};
ghost use Rattle.dsa_book.specs.declared.answer.DispatchAnswer.TheVariants.{Taken, Idle};
ghost use Rattle.dsa_book.specs.declared.answer.FetchAnswer.TheVariants.{NoBatch};
ghost use Rattle.dsa_book.specs.declared.answer.PollAnswer.TheVariants.{Nothing};
ghost use Rattle.dsa_book.specs.declared.answer.Reply.TheVariants.{Dispatch};
ghost use Rattle.dsa_book.specs.declared.event.Event.TheVariants.{Submit, Dispatch, Fetch, Start, Finish, Issue, Poll, WriteQueue, WriteGroup, ClearError};
ghost use Rattle.dsa_book.specs.declared.event.Actor.TheVariants.{Client, Engine, Admin};
ghost use Rattle.dsa_book.specs.declared.event.Kind.TheVariants.{Enqcmd, Movdir64b};
ghost use Rattle.dsa_book.specs.declared.event.Portal.TheVariants.{Limited};
ghost use Rattle.dsa_book.specs.Same.{same_ticket, same_cause, same_noted, same_reply};
ghost use Rattle.dsa_book.specs.Submit.{zf};
ghost use Rattle.dsa_book.specs.Totals.{actor_of, same_actor};
ghost use Rattle.dsa_book.specs.Machine.{history_after, is_legal};
ghost use Rattle.dsa_book.specs.Choice.{nothing, in_cell, from_queue, is_nothing, chosen_cell, may_enter};
ghost use Rattle.dsa_book.specs.State.{phase_at};
ghost use Rattle.dsa_book.specs.Work.{may_leave, dispatch_of, fetch_of};
ghost use Rattle.dsa_accounts.specs.Accounts.{submitted_entries, member_entries};
ghost use Rattle.dsa_worked.specs.Setup.{setup, no_op, move, batch, ticket, masked, polled, obeyed, to_shared};
ghost use Rattle.dsa_worked.specs.Batches.{fence_waits};
ghost use Rattle.dsa_worked.specs.States.{seen_after, running_member};
ghost use Rattle.dsa_worked.specs.Values.{cell, of_cell, three_lists, a_note, faults_of_devices};

/// The names of all commands.
pub fn names_of_commands()
    ensures device { map command_name
        (EnableDevice ∷ DisableDevice ∷ DrainAll ∷ AbortAll ∷ ResetDevice ∷ [])
        ≡ codes "Enable Device"
        ∷ codes "Disable Device"
        ∷ codes "Drain All"
        ∷ codes "Abort All"
        ∷ codes "Reset Device"
        ∷ [] }
    ensures queues { map command_name
        (EnableWq 0
        ∷ DisableWq (masked 1)
        ∷ DrainWq (masked 1)
        ∷ AbortWq (masked 1)
        ∷ ResetWq (masked 1)
        ∷ [])
        ≡ codes "Enable WQ"
        ∷ codes "Disable WQ"
        ∷ codes "Drain WQ"
        ∷ codes "Abort WQ"
        ∷ codes "Reset WQ"
        ∷ [] }
    ensures pasids { map command_name (DrainPasid 5 ∷ AbortPasid 5 ∷ [])
        ≡ codes "Drain PASID" ∷ codes "Abort PASID" ∷ [] }
{}

/// The numbers of all faults.
pub fn numbers_of_faults()
    ensures first { map fault_number
        (faults_of_devices ++ SizeZero ∷ PriorityZero ∷ ThresholdZero ∷ ThresholdAboveSize ∷ [])
        ≡ 1 ∷ 2 ∷ 3 ∷ 4 ∷ 5 ∷ 6 ∷ 7 ∷ 8 ∷ 9 ∷ 10 ∷ [] }
    ensures others { map fault_number
        (BatchTooLarge
        ∷ NoGroup
        ∷ BadCommand
        ∷ BadQueue
        ∷ Locked
        ∷ WrongState
        ∷ Busy
        ∷ PriorityTooLarge
        ∷ TransferTooLarge
        ∷ BadIndex
        ∷ [])
        ≡ 11 ∷ 12 ∷ 13 ∷ 14 ∷ 15 ∷ 16 ∷ 17 ∷ 18 ∷ 19 ∷ 20 ∷ [] }
{}

/// The names of the faults of a device's configuration.
pub fn names_of_device_faults()
    ensures { map fault_name
        (faults_of_devices ++ BadIndex ∷ [])
        ≡ codes "SizesTooLarge"
        ∷ codes "TwoGroups"
        ∷ codes "ReservedTooMany"
        ∷ codes "AllowedOutOfRange"
        ∷ codes "GroupWithoutEngine"
        ∷ codes "GroupWithoutQueue"
        ∷ codes "BadIndex"
        ∷ [] }
{}

/// The names of the faults of a queue's configuration.
pub fn names_of_queue_faults()
    ensures { map fault_name
        (SizeZero
        ∷ PriorityZero
        ∷ PriorityTooLarge
        ∷ ThresholdZero
        ∷ ThresholdAboveSize
        ∷ BatchTooLarge
        ∷ TransferTooLarge
        ∷ NoGroup
        ∷ [])
        ≡ codes "SizeZero"
        ∷ codes "PriorityZero"
        ∷ codes "PriorityTooLarge"
        ∷ codes "ThresholdZero"
        ∷ codes "ThresholdAboveSize"
        ∷ codes "BatchTooLarge"
        ∷ codes "TransferTooLarge"
        ∷ codes "NoGroup"
        ∷ [] }
{}

/// The names of the faults of commands and writes.
pub fn names_of_other_faults()
    ensures { map fault_name (BadCommand ∷ BadQueue ∷ Locked ∷ WrongState ∷ Busy ∷ [])
        ≡ codes "BadCommand"
        ∷ codes "BadQueue"
        ∷ codes "Locked"
        ∷ codes "WrongState"
        ∷ codes "Busy"
        ∷ [] }
{}

/// The names of operations, and what a size counts.
pub fn names_of_operations()
    ensures names { map operation_name (0 ∷ 1 ∷ 2 ∷ 3 ∷ 4 ∷ 5 ∷ 254 ∷ 255 ∷ [])
        ≡ Some (codes "No-op")
        ∷ Some (codes "Batch")
        ∷ Some (codes "Drain")
        ∷ Some (codes "Memory Move")
        ∷ Some (codes "Fill")
        ∷ Some (codes "Compare")
        ∷ None
        ∷ None
        ∷ [] }
    ensures sizes { map size_label (batch 2 ∷ move 2 ∷ []) ≡ codes "count" ∷ codes "size" ∷ [] }
    ensures rows { (o : Operation)
        → row_of o
        ≡ record {
          name = o.name.now;
          word = o.word.now;
          is_transfer = o.is_transfer;
          reads = o.reads;
          is_for_batches = o.is_for_batches;
        } }
{}

/// Of the fields of a descriptor those bits are written that its 64 bytes have room for, each field
/// at its place.
pub fn bytes_of_descriptors()
    ensures written { as_written
        (record { pasid = 2 ^ 20 + 7; flags = 2 ^ 24 + 9; op = 3; size = 5 })
        ≡ record { pasid = 7; flags = 9; op = 3; size = 5 } }
    ensures bytes { bytes_of
        (record
        { pasid = 2 ^ 20 + 0x2_0100; flags = 2 ^ 24 + 0x06_0504; op = 7; size = 0x2322_2120 })
        ≡ 0 ∷ 1 ∷ 2 ∷ 0 ∷ 4 ∷ 5 ∷ 6 ∷ 7 ∷ []
        ++ replicate 24 0
        ++ 0x20 ∷ 0x21 ∷ 0x22 ∷ 0x23 ∷ []
        ++ replicate 28 0 }
{}

/// The line of a descriptor, by its operation, with flags in hexadecimal.
#[tactic(auto, unfolding(crate::specs::Values::digits_in_lines))]
pub fn lines_of_descriptors()
    ensures of_a_move { line_of_descriptor (record (move 4096) { pasid = 5; flags = 0x0c })
        ≡ codes "Memory Move, PASID 5, flags 0x00000c, size 4096" }
    ensures of_a_batch { line_of_descriptor (record (batch 8) { pasid = 7; flags = 0xfedcba })
        ≡ codes "Batch, PASID 7, flags 0xfedcba, count 8" }
    ensures unnamed { map operation_text (0x0a ∷ 0xf7 ∷ [])
        ≡ codes "Operation 0x0a" ∷ codes "Operation 0xf7" ∷ [] }
{}

/// Before anything is written all is zero, and a queue that the device does not have is Off.
pub fn zeros()
    ensures queue { (zero_queue.size ∷ zero_queue.threshold ∷ zero_queue.priority ∷ zero_queue.pasid
        ∷ zero_queue.max_batch_shift ∷ zero_queue.max_xfer_shift ∷ [])
        ≡ replicate 6 0 }
    ensures kind { zero_queue.dedicated ≡ false }
    ensures group { zero_group ≡ record { queues = 0; engines = 0; reserved = 0; allowed = 0 } }
    ensures missing_queue { seen_after (λ w. phase_at w.setup 9) [] ≡ Some Off }
{}

/// Two tickets are the same with the same cell and the same name, and two causes are the same one.
pub fn same_tickets_and_causes()
    ensures tickets { map (same_ticket (ticket 2 5))
        (ticket 2 5 ∷ ticket 1 5 ∷ ticket 3 5 ∷ ticket 2 4 ∷ ticket 2 6 ∷ [])
        ≡ true ∷ false ∷ false ∷ false ∷ false ∷ [] }
    ensures at_limit { map (same_cause AtLimit) (AtLimit ∷ NotEnabled ∷ WrongKind ∷ [])
        ≡ true ∷ false ∷ false ∷ [] }
    ensures not_enabled { map (same_cause NotEnabled) (AtLimit ∷ NotEnabled ∷ WrongKind ∷ [])
        ≡ false ∷ true ∷ false ∷ [] }
    ensures wrong_kind { map (same_cause WrongKind) (AtLimit ∷ NotEnabled ∷ WrongKind ∷ [])
        ≡ false ∷ false ∷ true ∷ [] }
    ensures noted { map (same_noted (record { queue = 1; cause = AtLimit; overflow = false }))
        (record { queue = 1; cause = AtLimit; overflow = false }
        ∷ record { queue = 0; cause = AtLimit; overflow = false }
        ∷ record { queue = 2; cause = AtLimit; overflow = false }
        ∷ record { queue = 1; cause = WrongKind; overflow = false }
        ∷ record { queue = 1; cause = AtLimit; overflow = true }
        ∷ [])
        ≡ true ∷ false ∷ false ∷ false ∷ false ∷ [] }
    ensures queues { map (same_reply (Dispatch (Taken (ticket 2 5) 1)))
        (Dispatch (Taken (ticket 2 5) 1)
        ∷ Dispatch (Taken (ticket 2 5) 0)
        ∷ Dispatch (Taken (ticket 2 5) 2)
        ∷ Dispatch (Taken (ticket 2 4) 1)
        ∷ [])
        ≡ true ∷ false ∷ false ∷ false ∷ [] }
{}

/// What a program sees of its submission: the zero flag of ENQCMD, and of MOVDIR64B nothing.
pub fn zero_flags()
    ensures enqcmd { map (λ answer. zf answer (Enqcmd 5))
        (Accepted (ticket 0 0) ∷ Retry AtLimit ∷ Retry NotEnabled ∷ Full ∷ [])
        ≡ Some false ∷ Some true ∷ Some true ∷ None ∷ [] }
    ensures movdir { map (λ answer. zf answer Movdir64b)
        (Accepted (ticket 0 0) ∷ Dropped AtLimit ∷ Full ∷ [])
        ≡ None ∷ None ∷ None ∷ [] }
{}

/// A submission is its client's, work is its engine's, and all else is the administrator's.
pub fn actors()
    ensures client { actor_of (Submit 3 0 Limited (Enqcmd 5) no_op) ≡ Client 3 }
    ensures engines { map actor_of
        (Dispatch 1 ∷ Fetch 2 no_op ∷ Start 4 ∷ Finish 5 (ticket 0 0) Success ∷ [])
        ≡ Engine 1 ∷ Engine 2 ∷ Engine 4 ∷ Engine 5 ∷ [] }
    ensures administrator { map actor_of
        (Issue DrainAll
        ∷ Poll
        ∷ WriteQueue 0 shared_queue
        ∷ WriteGroup 0 first_group
        ∷ ClearError
        ∷ [])
        ≡ replicate 5 Admin }
    ensures same_client { map (same_actor (Client 1))
        (Client 1 ∷ Client 0 ∷ Client 2 ∷ Engine 1 ∷ Admin ∷ [])
        ≡ true ∷ false ∷ false ∷ false ∷ false ∷ [] }
    ensures same_engine { map (same_actor (Engine 1))
        (Engine 1 ∷ Engine 0 ∷ Engine 2 ∷ Client 1 ∷ Admin ∷ [])
        ≡ true ∷ false ∷ false ∷ false ∷ false ∷ [] }
    ensures same_administrator { map (same_actor Admin) (Admin ∷ Client 0 ∷ Engine 0 ∷ [])
        ≡ true ∷ false ∷ false ∷ [] }
{}

/// A history goes on with what is kept, and each of its steps is kept and may come there.
pub fn histories()
    ensures kept { history_after (take 1 setup) (obeyed DrainAll)
        ≡ take 1 setup ++ obeyed DrainAll ∷ [] }
    ensures not_kept { history_after (take 1 setup) (polled Nothing) ≡ take 1 setup }
    ensures may_not_come { is_legal caps (to_shared no_op 0 0 ∷ []) ≡ false }
    ensures one_is_not_kept { is_legal caps (setup ++ polled Nothing ∷ []) ≡ false }
{}

/// A cell is chosen for an entry that comes in, a queue where one is taken, and nothing else.
pub fn choices()
    ensures nothing { map is_nothing (nothing ∷ in_cell (cell 0) ∷ from_queue 0 ∷ [])
        ≡ true ∷ false ∷ false ∷ [] }
    ensures cells { map chosen_cell (in_cell (cell 3) ∷ nothing ∷ from_queue 2 ∷ [])
        ≡ cell 3 ∷ cell 0 ∷ cell 0 ∷ [] }
    ensures enters { seen_after
        (λ w. map (may_enter w.setup w.content)
        (nothing ∷ in_cell (cell 27) ∷ in_cell (cell 28) ∷ from_queue 0 ∷ []))
        []
        ≡ Some (true ∷ true ∷ false ∷ false ∷ []) }
    ensures leaves { seen_after
        (λ w. map (may_leave w 0) (nothing ∷ in_cell (cell 0) ∷ from_queue 0 ∷ [])) []
        ≡ Some (true ∷ false ∷ false ∷ []) }
    ensures no_front { seen_after (λ w. (dispatch_of w 0 0 None).0) [] ≡ Some Idle }
    ensures no_batch { seen_after (λ w. (fetch_of w 0 no_op (cell 0) a_note None).0) []
        ≡ Some NoBatch }
{}

/// A batch and its three members are one entry that was submitted and three members.
pub fn entries_of_a_batch()
    ensures submitted { seen_after submitted_entries (take 5 fence_waits) ≡ Some 1 }
    ensures members { seen_after member_entries (take 5 fence_waits) ≡ Some 3 }
{}

/// What three lists of cells 4 and 2, of cell 7 and of no cell say of a cell.
pub fn cells_of_lists()
    ensures entries { map (λ n. entry_of three_lists (cell n)) (4 ∷ 2 ∷ 7 ∷ 9 ∷ [])
        ≡ Some (of_cell 4).1 ∷ Some (of_cell 2).1 ∷ Some (of_cell 7).1 ∷ None ∷ [] }
    ensures lists { map (λ n. list_of_cell three_lists (cell n)) (4 ∷ 2 ∷ 7 ∷ 9 ∷ [])
        ≡ Some 0 ∷ Some 0 ∷ Some 1 ∷ None ∷ [] }
    ensures first { map first_cell three_lists ≡ Some (cell 4) ∷ Some (cell 7) ∷ None ∷ [] }
    ensures after { map (λ n. cell_after (cell n) (of_cell 4 ∷ of_cell 2 ∷ of_cell 7 ∷ []))
        (4 ∷ 2 ∷ 7 ∷ 9 ∷ [])
        ≡ Some (cell 2) ∷ Some (cell 7) ∷ None ∷ None ∷ [] }
    ensures next { map (λ n. next_of three_lists (cell n)) (4 ∷ 2 ∷ 7 ∷ 9 ∷ [])
        ≡ Some (cell 2) ∷ None ∷ None ∷ None ∷ [] }
    ensures rest { map (λ n. from_cell (cell n) (of_cell 4 ∷ of_cell 2 ∷ [])) (4 ∷ 2 ∷ 9 ∷ [])
        ≡ (of_cell 4 ∷ of_cell 2 ∷ []) ∷ (of_cell 2 ∷ []) ∷ [] ∷ [] }
    ensures walks { map (entries_from three_lists)
        (Some (cell 4) ∷ Some (cell 2) ∷ Some (cell 7) ∷ None ∷ [])
        ≡ (of_cell 4 ∷ of_cell 2 ∷ []) ∷ (of_cell 2 ∷ []) ∷ (of_cell 7 ∷ []) ∷ [] ∷ [] }
{}

/// A front moves to the end of another list, another entry is put in a cell, and a list is emptied.
pub fn changes_of_lists()
    ensures moved { after_move three_lists 0 1
        ≡ (of_cell 2 ∷ []) ∷ (of_cell 7 ∷ of_cell 4 ∷ []) ∷ [] ∷ [] }
    ensures moved_to_none { after_move three_lists 1 2
        ≡ (of_cell 4 ∷ of_cell 2 ∷ []) ∷ [] ∷ (of_cell 7 ∷ []) ∷ [] }
    ensures set { after_set three_lists (cell 2) running_member.1
        ≡ (of_cell 4 ∷ (cell 2, running_member.1) ∷ []) ∷ (of_cell 7 ∷ []) ∷ [] ∷ [] }
    ensures given_back { after_give_back three_lists 0 ≡ [] ∷ (of_cell 7 ∷ []) ∷ [] ∷ [] }
{}

/// Read buffers are counted over groups that have a number in use; of the reason that a batch shift
/// is too large the number is that shift.
pub fn numbers_of_groups_and_queues()
    ensures no_number { covered_count (first_group ∷ []) [] ≡ 0 }
    ensures batch_shift { check_queue_reason caps groups 0
        (record shared_queue { max_batch_shift = 5 })
        ≡ Some (BatchTooLarge 0 5 3) }
{}

/// How often cells are among those that are free.
#[tactic(auto, unfolding(dsa_store::specs::Plain::spare))]
pub fn spare_cells()
    ensures { map (λ n. spare (cell n) (cell 4 ∷ cell 2 ∷ cell 4 ∷ [])) (1 ∷ 2 ∷ 3 ∷ 4 ∷ 5 ∷ [])
        ≡ 0 ∷ 1 ∷ 0 ∷ 2 ∷ 0 ∷ [] }
{}
