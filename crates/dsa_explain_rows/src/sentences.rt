//! The sentence of each reason.

ghost use Rattle.std.specs.Prelude.{◌≡◌, [], ◌∷◌, Some, None, true, false, codes, map};
ghost use Rattle.dsa_regs.specs.{declared.Command.TheVariants.{DrainAll, DrainPasid}, declared.Phase.TheVariants.{Off, On, Stopping}, declared.layout.ListUse.TheVariants.{Members, Progress, Queue}};
ghost use Rattle.dsa_book.specs.{declared.event.Portal.TheVariants.{Limited, Unlimited}, declared.fate.Fate.TheVariants.{Abandoned, Aborted, Completed}};
ghost use Rattle.dsa_queues.specs.declared.reasons.SubmitReason.TheVariants as submit;
ghost use Rattle.dsa_admin.specs.declared.reasons.IssueReason.TheVariants as issue;
ghost use Rattle.dsa_admin.specs.declared.reasons.PollReason.TheVariants as poll;
ghost use Rattle.dsa_engines.specs.declared.reasons.EngineReason.TheVariants as engine;
ghost use Rattle.dsa_engines.specs.declared.reasons.QueueReason.TheVariants as queue;
ghost use Rattle.dsa_engines.specs.declared.reasons.FetchReason.TheVariants as fetch;
ghost use Rattle.dsa_engines.specs.declared.reasons.StartReason.TheVariants as start;
ghost use Rattle.dsa_engines.specs.declared.reasons.FinishReason.TheVariants as finish;
ghost use Rattle.dsa_regs.specs.declared.reasons.CheckReason.TheVariants as check;
ghost use Rattle.dsa_regs.specs.declared.reasons.Named.TheVariants as named;
ghost use Rattle.dsa_regs.specs.declared.reasons.Bound.TheVariants as bound;
ghost use Rattle.dsa_queues.specs.declared.reasons.WriteReason.TheVariants as write;
ghost use Rattle.dsa_queues.specs.declared.reasons.ClearReason.TheVariants as clear;
ghost use Rattle.dsa_explain.specs.declared.done.DoneReason.TheVariants as done;
ghost use Rattle.dsa_explain_lines.specs.Sentences.{check_sentence, clear_sentence, done_sentence, engine_sentence, fate_sentence, fetch_sentence, finish_sentence, issue_sentence, kept_words, list_words, poll_sentence, power_words, queue_check_words, queue_sentence, start_sentence, status_digits, submit_sentence, unnamed_sentence, wait_count, write_sentence};
ghost use Rattle.dsa_explain_rows.specs.Sentences.{held_at, some_want};

/// Of a submission.
#[tactic(auto, unfolding(dsa_scenario::specs::Worked::digits_on_literals))]
pub fn submissions()
    ensures not_there { submit_sentence 9 (submit.NotEnabled On None)
        ≡ codes "the device has no q9" }
    ensures not_on { submit_sentence 0 (submit.NotEnabled On (Some Stopping))
        ≡ codes "the device is on, and q0 is stopping" }
    ensures off { submit_sentence 12 (submit.NotEnabled Off (Some Off))
        ≡ codes "the device is off, and q12 is off" }
    ensures dedicated { submit_sentence 3 (submit.WrongKind true)
        ≡ codes "q3 is dedicated, and takes movdir" }
    ensures shared { submit_sentence 1 (submit.WrongKind false)
        ≡ codes "q1 is shared, and takes enqcmd" }
    ensures limited { submit_sentence 0 (submit.AtLimit 3 2 Limited)
        ≡ codes "q0 holds 3 entries, and the limited portal goes up to 2" }
    ensures one { submit_sentence 0 (submit.AtLimit 1 1 Limited)
        ≡ codes "q0 holds 1 entry, and the limited portal goes up to 1" }
    ensures unlimited { submit_sentence 5 (submit.AtLimit 16 16 Unlimited)
        ≡ codes "q5 holds 16 entries, and the unlimited portal goes up to 16" }
{}

/// Of an idle engine, and of a queue with its front.
#[tactic(auto, unfolding(dsa_scenario::specs::Worked::digits_on_literals))]
pub fn dispatches()
    ensures not_there { engine_sentence 9 engine.NoEngine ≡ codes "the device has no e9" }
    ensures no_group { engine_sentence 1 engine.NoGroup ≡ codes "e1 is of no group" }
    ensures empty { queue_sentence 7 2 queue.Empty ≡ codes "q7 is empty" }
    ensures slots { queue_sentence 0 5 (queue.NoSlot 3 4)
        ≡ codes "q0's front 5 waits for a slot, of which 3 of 4 are in use" }
    ensures one_slot { queue_sentence 0 5 (queue.NoSlot 1 1)
        ≡ codes "q0's front 5 waits for a slot, of which 1 of 1 is in use" }
    ensures one_buffer { queue_sentence 1 2
        (queue.NoBuffers (record some_want { asked = 1; kept = 1 }))
        ≡ codes "q1's front 2 needs 1 read buffer, group 3 uses 8 of 10, all groups use 12 of 16, and 1 is kept" }
    ensures buffers { queue_sentence 1 2 (queue.NoBuffers some_want)
        ≡ codes "q1's front 2 needs 4 read buffers, group 3 uses 8 of 10, all groups use 12 of 16, and 6 are kept" }
    ensures batch { queue_sentence 0 3 (queue.OtherBatch 1)
        ≡ codes "q0's front 3 is a batch, and the engine works on batch 1" }
    ensures drain { queue_sentence 2 3 (queue.OtherDrain 1)
        ≡ codes "q2's front 3 is a drain, and drain 1 is in progress on the engine" }
    ensures kept { kept_words 4 1 ≡ codes ", 4 for group 1" }
{}

/// Of a member that is not fetched.
#[tactic(auto, unfolding(dsa_scenario::specs::Worked::digits_on_literals))]
pub fn fetches()
    ensures not_there { fetch_sentence 9 fetch.NoEngine ≡ codes "the device has no e9" }
    ensures no_batch { fetch_sentence 4 fetch.NoBatch ≡ codes "e4 works on no batch" }
    ensures all { fetch_sentence 0 (fetch.AllFetched 2 2 false)
        ≡ codes "e0 has fetched 2 of 2 members" }
    ensures abandoned { fetch_sentence 0 (fetch.AllFetched 3 1 true)
        ≡ codes "e0 has fetched 1 of 3 members, and the rest is abandoned" }
{}

/// Of a member that does not start.
#[tactic(auto, unfolding(dsa_scenario::specs::Worked::digits_on_literals))]
pub fn starts()
    ensures nothing { start_sentence 2 start.Nothing ≡ codes "no member waits on e2" }
    ensures fence { start_sentence 0 (start.Fence 3 1)
        ≡ codes "member 3 has a fence, and waits for 1" }
    ensures failed { start_sentence 0 (start.Failed 3 (Some 1) 2)
        ≡ codes "member 3 has a fence, member 1 before it failed, and 2 end unstarted" }
    ensures one_left { start_sentence 0 (start.Failed 3 (Some 1) 1)
        ≡ codes "member 3 has a fence, member 1 before it failed, and 1 ends unstarted" }
    ensures one_failed { start_sentence 0 (start.Failed 3 None 2)
        ≡ codes "member 3 has a fence, a member before it failed, and 2 end unstarted" }
    ensures buffers { start_sentence 0 (start.NoBuffers some_want)
        ≡ codes "the member needs 4 read buffers, group 3 uses 8 of 10, all groups use 12 of 16, and 6 are kept" }
    ensures no_group { start_sentence 5 start.NoGroup ≡ codes "e5 is of no group" }
{}

/// Of an entry that does not end.
#[tactic(auto, unfolding(dsa_scenario::specs::Worked::digits_on_literals))]
pub fn ends()
    ensures not_there { finish_sentence 9 finish.NoEngine ≡ codes "the device has no e9" }
    ensures no_entry { finish_sentence 0 finish.NoEntry
        ≡ codes "the cell of the ticket holds no entry" }
    ensures other_name { finish_sentence 0 (finish.OtherName 4)
        ≡ codes "the cell of the ticket holds 4 by now" }
    ensures in_a_queue { finish_sentence 0 (finish.Elsewhere (Queue 2))
        ≡ codes "the entry stands in q2" }
    ensures in_progress { finish_sentence 0 (finish.Elsewhere (Progress 1))
        ≡ codes "the entry stands in e1" }
    ensures among_members { finish_sentence 0 (finish.Elsewhere (Members 1))
        ≡ codes "the entry stands in batch of e1" }
    ensures not_started { finish_sentence 0 finish.NotStarted ≡ codes "the member has not started" }
    ensures members { finish_sentence 0 (finish.MembersLeft 2) ≡ codes "2 members have not ended" }
    ensures one_member { finish_sentence 0 (finish.MembersLeft 1) ≡ codes "1 member has not ended" }
    ensures to_fetch { finish_sentence 0 (finish.StillToFetch 1 2)
        ≡ codes "e0 has fetched 1 of 2 members" }
    ensures drain { finish_sentence 0 (finish.DrainWaits 7) ≡ codes "the drain waits for 7" }
{}

/// Of an entry that ends without success.
#[tactic(auto, unfolding(dsa_scenario::specs::Worked::digits_on_literals))]
pub fn failures()
    ensures no_operation { map (λ op. done_sentence (done.NotSupported op)) (0x06 ∷ 0xab ∷ [])
        ≡ codes "operation 0x6 is not supported" ∷ codes "operation 0xab is not supported" ∷ [] }
    ensures in_a_batch { map (λ op. done_sentence (done.NotSupported op)) (0x01 ∷ 0x02 ∷ [])
        ≡ codes "batch is not supported in a batch" ∷ codes "drain is not supported in a batch"
        ∷ [] }
    ensures fence { done_sentence done.FenceOutside ≡ codes "a fence outside a batch" }
    ensures size { done_sentence (done.SizeOutside 4097 12 5)
        ≡ codes "size 4097 is above 4096, the transfer limit of q5" }
    ensures no_size { done_sentence (done.SizeOutside 0 12 5) ≡ codes "size 0 is below 1" }
    ensures one { done_sentence (done.SizeOutside 1 0 5)
        ≡ codes "size 1 is above 1, the transfer limit of q5" }
    ensures largest { map power_words (31 ∷ 32 ∷ []) ≡ codes "2147483648" ∷ codes "2^32" ∷ [] }
    ensures count { done_sentence (done.CountOutside 5 2 0)
        ≡ codes "count 5 is above 4, the batch limit of q0" }
    ensures no_batch { map (λ count. done_sentence (done.CountOutside count 2 0)) (0 ∷ 1 ∷ [])
        ≡ codes "count 0 is below 2" ∷ codes "count 1 is below 2" ∷ [] }
    ensures two { done_sentence (done.CountOutside 2 0 0)
        ≡ codes "count 2 is above 1, the batch limit of q0" }
    ensures member { done_sentence (done.MembersFailed 6 0x13 1) ≡ codes "member 6 ended with 13" }
    ensures members { done_sentence (done.MembersFailed 6 0x03 2)
        ≡ codes "member 6 ended with 03, the first of 2" }
    ensures forgotten { done_sentence done.FailureForgotten ≡ codes "a member failed" }
    ensures digits { map status_digits (0x0f ∷ 0x10 ∷ []) ≡ codes "0f" ∷ codes "10" ∷ [] }
    ensures fault { done_sentence done.PageFault ≡ codes "page fault" }
{}

/// Of an entry that is gone, and of a name that none has.
#[tactic(auto, unfolding(dsa_scenario::specs::Worked::digits_on_literals))]
pub fn fates()
    ensures completed { fate_sentence 4 (Completed 3) ≡ codes "4 has completed" }
    ensures aborted { map (λ command. fate_sentence 0 (Aborted command))
        (4 ∷ 5 ∷ 9 ∷ 10 ∷ 12 ∷ [])
        ≡ codes "0 was aborted by abort-all" ∷ codes "0 was aborted by reset-device"
        ∷ codes "0 was aborted by abort-wq" ∷ codes "0 was aborted by reset-wq"
        ∷ codes "0 was aborted by abort-pasid" ∷ [] }
    ensures no_command { fate_sentence 12 (Aborted 13) ≡ codes "12 was aborted" }
    ensures abandoned { fate_sentence 7 Abandoned ≡ codes "7 was abandoned" }
    ensures unnamed { unnamed_sentence 167 ≡ codes "no entry has the name 167" }
{}

/// Of a command that is refused, with the first entry that is awaited; of each what is its own.
#[tactic(auto, unfolding(dsa_scenario::specs::Worked::digits_on_literals))]
pub fn commands()
    ensures busy { issue_sentence (Some (held_at (Queue 0) 4)) (issue.Busy DrainAll 2)
        ≡ codes "drain-all is active, and waits for 2 entries, first for 4 in q0" }
    ensures in_progress { issue_sentence (Some (held_at (Progress 1) 0))
        (issue.Busy (DrainPasid 5) 1)
        ≡ codes "drain-pasid 5 is active, and waits for 1 entry, first for 0 in e1" }
    ensures at_its_end { issue_sentence None (issue.Busy DrainAll 0)
        ≡ codes "drain-all has ended, and no poll has reported it" }
    ensures missing { issue_sentence None (issue.NoQueue (Some 9)) ≡ codes "the device has no q9" }
    ensures none_named { issue_sentence None (issue.NoQueue None) ≡ codes "no queue is named" }
    ensures device { issue_sentence None (issue.WrongPhase None Off) ≡ codes "the device is off" }
    ensures queue { issue_sentence None (issue.WrongPhase (Some 3) On) ≡ codes "q3 is on" }
    ensures check { issue_sentence (Some (held_at (Queue 0) 4)) (issue.Check (check.SizeZero 1))
        ≡ codes "the size of q1 is 0" }
{}

/// Of a command that waits.
#[tactic(auto, unfolding(dsa_scenario::specs::Worked::digits_on_literals))]
pub fn waits()
    ensures nothing { poll_sentence None poll.Nothing ≡ codes "no command is active" }
    ensures waits { poll_sentence (Some (held_at (Members 1) 4)) (poll.Waits 3)
        ≡ codes "the command waits for 3 entries, first for 4 in batch of e1" }
    ensures counts { map wait_count (1 ∷ 2 ∷ [])
        ≡ codes "the command waits for 1 entry" ∷ codes "the command waits for 2 entries" ∷ [] }
{}

/// Of the groups, where the device is to be enabled.
#[tactic(auto, unfolding(dsa_scenario::specs::Worked::digits_on_literals))]
pub fn checks_of_groups()
    ensures missing_queue { check_sentence (check.NamesMissing 2 (named.Queue 3) 3)
        ≡ codes "group 2 names q3, and the device has 3 queues" }
    ensures missing_engine { check_sentence (check.NamesMissing 1 (named.Engine 63) 4)
        ≡ codes "group 1 names e63, and the device has 4 engines" }
    ensures one_queue { check_sentence (check.NamesMissing 0 (named.Queue 1) 1)
        ≡ codes "group 0 names q1, and the device has 1 queue" }
    ensures one_engine { check_sentence (check.NamesMissing 0 (named.Engine 1) 1)
        ≡ codes "group 0 names e1, and the device has 1 engine" }
    ensures sizes { check_sentence (check.SizesTooLarge 20 16)
        ≡ codes "the sizes of the queues are 20, of 16" }
    ensures shared_queue { check_sentence (check.TwoGroups (named.Queue 0) 1 2)
        ≡ codes "q0 is in group 1 and in group 2" }
    ensures shared_engine { check_sentence (check.TwoGroups (named.Engine 3) 0 1)
        ≡ codes "e3 is in group 0 and in group 1" }
    ensures reserved { check_sentence (check.ReservedTooMany 20 16)
        ≡ codes "the groups reserve 20 read buffers, of 16" }
    ensures below_its_reserve { check_sentence (check.AllowedOutOfRange 2 7 (bound.Reserved 8))
        ≡ codes "group 2 may use 7 read buffers, below the 8 that it reserves" }
    ensures above_the_rest { check_sentence (check.AllowedOutOfRange 2 13 (bound.Unreserved 12))
        ≡ codes "group 2 may use 13 read buffers, above the 12 that others leave" }
    ensures below_need { check_sentence (check.AllowedOutOfRange 1 3 bound.Need)
        ≡ codes "group 1 may use 3 read buffers, below the 4 that a descriptor may need" }
    ensures one_buffer { check_sentence (check.AllowedOutOfRange 1 1 bound.Need)
        ≡ codes "group 1 may use 1 read buffer, below the 4 that a descriptor may need" }
    ensures no_engine { check_sentence (check.GroupWithoutEngine 5)
        ≡ codes "group 5 has a queue and no engine" }
    ensures no_queue { check_sentence (check.GroupWithoutQueue 5)
        ≡ codes "group 5 has an engine and no queue" }
    ensures of_no_queue { queue_check_words (check.GroupWithoutQueue 5) ≡ [] }
{}

/// Of a queue that is to be enabled.
#[tactic(auto, unfolding(dsa_scenario::specs::Worked::digits_on_literals))]
pub fn checks_of_queues()
    ensures size { check_sentence (check.SizeZero 3) ≡ codes "the size of q3 is 0" }
    ensures priority { check_sentence (check.PriorityZero 3) ≡ codes "the priority of q3 is 0" }
    ensures large_priority { check_sentence (check.PriorityTooLarge 3 16)
        ≡ codes "the priority of q3 is 16, above 15" }
    ensures threshold { check_sentence (check.ThresholdZero 3) ≡ codes "the threshold of q3 is 0" }
    ensures large_threshold { check_sentence (check.ThresholdAboveSize 0 3 2)
        ≡ codes "the threshold of q0 is 3, above its size of 2" }
    ensures batch { check_sentence (check.BatchTooLarge 1 9 8)
        ≡ codes "the batch shift of q1 is 9, above the device's 8" }
    ensures transfer { check_sentence (check.TransferTooLarge 2 21 20)
        ≡ codes "the transfer shift of q2 is 21, above the device's 20" }
    ensures no_group { check_sentence (check.NoGroup 4) ≡ codes "no group has q4" }
{}

/// The names of a list, behind a mark and a verb.
#[tactic(auto, unfolding(dsa_scenario::specs::Worked::digits_on_literals))]
pub fn lists()
    ensures one { list_words (codes ": ") (codes " loses ") (Progress 0) (3 ∷ [])
        ≡ codes ": e0 loses 3" }
    ensures three { list_words (codes "; ") (codes ": ") (Queue 2) (4 ∷ 7 ∷ 12 ∷ [])
        ≡ codes "; q2: 4, 7, 12" }
    ensures members { list_words (codes ", ") (codes ": ") (Members 1) (1 ∷ 2 ∷ [])
        ≡ codes ", batch of e1: 1, 2" }
    ensures none { list_words (codes ": ") (codes " loses ") (Queue 2) [] ≡ [] }
{}

/// Of a configuration that is not written, and of no error.
#[tactic(auto, unfolding(dsa_scenario::specs::Worked::digits_on_literals))]
pub fn writes()
    ensures no_queue { write_sentence (codes "queue") (codes "queues") (write.BadIndex 2)
        ≡ codes "the device has 2 queues" }
    ensures no_group { write_sentence (codes "group") (codes "groups") (write.BadIndex 1)
        ≡ codes "the device has 1 group" }
    ensures queue { write_sentence (codes "queue") (codes "queues") (write.LockedQueue Stopping)
        ≡ codes "the queue is stopping" }
    ensures size { write_sentence (codes "queue") (codes "queues") (write.LockedSize On 12)
        ≡ codes "the device is on, and the size stays 12" }
    ensures group { write_sentence (codes "group") (codes "groups") (write.LockedGroup Stopping)
        ≡ codes "the device is stopping" }
    ensures clear { clear_sentence clear.NothingNoted ≡ codes "no error is noted" }
{}
