//! Parties that keep to their places, and logs of a script's parties.

ghost use Rattle.std.specs.Prelude.{◌≡◌, ◌==◌, ℕ, ◌∷◌, [], Some, map, replicate, true, false};
ghost use Rattle.std.specs.declared.alloc.Global.{Global};
ghost use Rattle.dsa_desc.specs.declared.Outcome.TheVariants.{Success};
ghost use Rattle.dsa_book.specs.State.{State};
ghost use Rattle.dsa_book.specs.declared.answer.FetchAnswer.TheVariants.{Fetched};
ghost use Rattle.dsa_book.specs.declared.answer.FinishAnswer.TheVariants.{Gone};
ghost use Rattle.dsa_book.specs.declared.answer.PollAnswer.TheVariants.{Nothing};
ghost use Rattle.dsa_book.specs.declared.answer.Reply.{Reply};
ghost use Rattle.dsa_book.specs.declared.answer.Reply.TheVariants as reply;
ghost use Rattle.dsa_book.specs.declared.answer.SubmitAnswer.TheVariants.{Accepted};
ghost use Rattle.dsa_book.specs.declared.event.Event.TheVariants as event;
ghost use Rattle.dsa_keys.specs.Parties.{AreLawful, Parties, World, world_after, world_after_all};
ghost use Rattle.dsa_keys.specs.Steps.{IsLabelled};
ghost use Rattle.dsa_parties.specs.{Offers.{parties_of}, Watches.{is_ahead, is_answered_so}};
ghost use Rattle.dsa_parties.specs.Worked.{operation_of_size, part_between, worked_script};
ghost use Rattle.dsa_parties.specs.declared.watches.Became.TheVariants as became;
ghost use Rattle.dsa_explore.specs.WorkedSearch.{uneven_caps};
ghost use Rattle.dsa_obeys.specs.Obeys.{fetches, is_work, works};
ghost use Rattle.dsa_obeys.specs.Walks.{IsWalkOf, lines_of_moves};
ghost use Rattle.dsa_obeys.specs.Worked.{batch_line, drain_line, short_log, state_before_log};
ghost use Rattle.dsa_obeys.specs.Worked.{ticket_in, world_before_log};
ghost use Rattle.dsa_statement_rows.specs.Searches.{note_of_a_new_batch};

/// Where the good worlds are those at place 0, no move of lawful parties leads from there.
pub fn lawful_parties()
    ensures kept { (parties : Parties ℕ ℕ) (w w' : World ℕ) (reply : Reply)
        → AreLawful uneven_caps parties (λ w. w.places == 0)
        → IsLabelled uneven_caps w.labels w.state → (w.places == 0) ≡ true
        → world_after parties w 5 reply ≡ Some w'
        → (w'.places == 0) ≡ true }
{}

/// An engine of the script may ask for the end of an entry that no line brought in.
pub fn ends_of_other_entries()
    ensures each { (memory : Global) (s : State) → map
        (λ engine. is_work (worked_script memory) [] s works
        (event.Finish engine (ticket_in 9 9) Success) (reply.Finish Gone)) (0 ∷ 1 ∷ 3 ∷ [])
        ≡ true ∷ false ∷ true ∷ [] }
{}

/// An engine that is none of the script's fetches no member for it, though it works on the batch.
pub fn fetches_of_other_engines()
    ensures each { (memory : Global) → map
        (λ engine. is_work (worked_script memory) (batch_line (Accepted (ticket_in 0 0)) ∷ [])
        (record state_before_log {
          work = record state_before_log.work {
            notes = replicate 2 (Some note_of_a_new_batch);
          };
        })
        (fetches 1) (event.Fetch engine (operation_of_size 3 4096))
        (reply.Fetch (Fetched (ticket_in 2 2)))) (0 ∷ 1 ∷ []) ≡ true ∷ false ∷ [] }
{}

/// The moves of a walk leave the lines of its log but for those that ask for what is not there.
pub fn lines_of_walks()
    ensures short { (memory : Global) (s : State)
        (walk : IsWalkOf (worked_script memory) (world_before_log memory) short_log s)
        → lines_of_moves (worked_script memory) (world_before_log memory) walk.moves
        ≡ Some drain_line ∷ [] }
    ensures led { (memory : Global) (s : State)
        (walk : IsWalkOf (worked_script memory) (world_before_log memory) short_log s)
        → world_after_all (parties_of (worked_script memory)) (world_before_log memory) walk.moves
        ≡ Some walk.last }
{}

/// The answer to a poll is none to a submission, and only the acts of its own part are ahead of an
/// administrator.
pub fn watches_of_other_moves()
    ensures answers { map (is_answered_so became.Accepted)
        (reply.Poll Nothing ∷ reply.Submit (Accepted (ticket_in 0 0)) ∷ [])
        ≡ false ∷ true ∷ [] }
    ensures acts { map (λ act. is_ahead act (part_between 1 3) 0) (0 ∷ 1 ∷ 2 ∷ 3 ∷ [])
        ≡ false ∷ true ∷ true ∷ false ∷ [] }
{}
