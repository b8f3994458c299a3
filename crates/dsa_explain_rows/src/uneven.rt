//! Reasons on devices that have not as many queues as engines, nor as many of these as groups.

ghost use Rattle.std.specs.Prelude.{◌≡◌, [], ◌∷◌, Some, None, true, false, codes, map, take};
ghost use Rattle.dsa_worked.specs.Setup.{batch, held_entry, step_of_a_group_write, ticket};
ghost use Rattle.dsa_book.specs.declared.answer.WriteAnswer.TheVariants.{Written};
ghost use Rattle.dsa_worked.specs.Uneven.{many_engines, many_groups, many_queues, of_these, last_of_many_engines, last_of_many_groups, engine_beyond_the_last, seen_there};
ghost use Rattle.dsa_engines.specs.declared.reasons.EngineReason.TheVariants.{NoEngine, NoGroup};
ghost use Rattle.dsa_engines.specs.declared.reasons.QueueReason.TheVariants.{NoSlot};
ghost use Rattle.dsa_engines.specs.declared.reasons.FetchReason.TheVariants as fetch;
ghost use Rattle.dsa_engines.specs.declared.reasons.FinishReason.TheVariants as finish;
ghost use Rattle.dsa_engines.specs.Dispatch.{all_have_reasons, engine_reason, is_offered, queue_reason};
ghost use Rattle.dsa_engines.specs.Batch.{fetch_reason, fetch_reason_of};
ghost use Rattle.dsa_engines.specs.Finish.{finish_reason};
ghost use Rattle.dsa_buffers.specs.Buffers.{buffers_in_use, kept_from};
ghost use Rattle.dsa_engines.specs.Engines.{buffers_at};
ghost use Rattle.dsa_explain_lines.specs.Parts.{dispatch_part, keeping_part, start_part};

/// Of many queues one engine is there, and of many engines the last five are in a group.
#[tactic(auto, unfolding(dsa_scenario::specs::Worked::digits_on_literals))]
pub fn engines()
    ensures one { seen_there (λ s. map (engine_reason s.work) (0 ∷ 1 ∷ [])) many_queues
        (take 8 engine_beyond_the_last)
        ≡ Some (None ∷ Some NoEngine ∷ []) }
    ensures many { seen_there (λ s. map (engine_reason s.work) (1 ∷ 2 ∷ 6 ∷ 7 ∷ [])) many_engines
        (take 4 last_of_many_engines)
        ≡ Some (Some NoGroup ∷ None ∷ None ∷ Some NoEngine ∷ []) }
    ensures offered { seen_there (λ s. map (λ e. is_offered s.work e 0) (1 ∷ 6 ∷ [])) many_engines
        (take 4 last_of_many_engines)
        ≡ Some (false ∷ true ∷ []) }
    ensures fetches { seen_there (λ s. map (fetch_reason s.work) (6 ∷ 7 ∷ [])) many_engines
        (take 4 last_of_many_engines)
        ≡ Some (Some fetch.NoBatch ∷ Some fetch.NoEngine ∷ []) }
    ensures no_second_fetches { seen_there (λ s. fetch_reason s.work 1) many_queues
        (take 8 engine_beyond_the_last)
        ≡ Some (Some fetch.NoEngine) }
    ensures starts { seen_there (λ s. map (start_part s.work) (6 ∷ 7 ∷ [])) many_engines
        (take 4 last_of_many_engines)
        ≡ Some (codes ": no member waits on e6" ∷ codes ": the device has no e7" ∷ []) }
    ensures ends { seen_there
        (λ s. map (λ e. finish_reason s.work e (ticket 9 9)) (6 ∷ 7 ∷ [])) many_engines
        (take 4 last_of_many_engines)
        ≡ Some (Some finish.NoEntry ∷ Some finish.NoEngine ∷ []) }
    ensures no_second_ends { seen_there (λ s. finish_reason s.work 1 (ticket 9 9)) many_queues
        (take 8 engine_beyond_the_last)
        ≡ Some (Some finish.NoEngine) }
{}

/// The last of many queues has an entry, and the one slot of an engine is in use.
pub fn queues()
    ensures to_take { seen_there (λ s. all_have_reasons s.work 0) many_queues
        (take 9 engine_beyond_the_last)
        ≡ Some false }
    ensures no_slot { seen_there (λ s. queue_reason s.work 1 2) many_groups last_of_many_groups
        ≡ Some (Some (NoSlot 1 1)) }
{}

/// All groups are counted: what the last of them uses, and what is kept for it.
pub fn groups()
    ensures in_use { seen_there (λ s. buffers_in_use (buffers_at s.work)) many_groups
        last_of_many_groups
        ≡ Some 1 }
    ensures kept { seen_there (λ s. kept_from (buffers_at s.work) 0) many_groups
        (step_of_a_group_write 7 (record (of_these 4 2) { reserved = 3 }) Written ∷ [])
        ≡ Some 3 }
{}

/// A batch of which a member failed and all were fetched is not closed.
pub fn failed_batches()
    ensures failed_but_not_closed { fetch_reason_of
        (record { batch = 0; count = 3; fetched = 3; failed = true; closed = false })
        (Some (held_entry 0 0 None (batch 3) 0 true))
        ≡ Some (fetch.AllFetched 3 3 false) }
{}

/// All groups that something is kept for are named, and all queues of the engine.
#[tactic(auto, unfolding(dsa_scenario::specs::Worked::digits_on_literals))]
pub fn last_in_words()
    ensures group { seen_there (λ s. keeping_part s.work 0) many_groups
        (step_of_a_group_write 7 (record (of_these 4 2) { reserved = 3 }) Written ∷ [])
        ≡ Some (codes ", 3 for group 7") }
    ensures queue { seen_there (λ s. dispatch_part s.work 0) many_queues
        (take 8 engine_beyond_the_last)
        ≡ Some (codes ": q6 is empty") }
{}
