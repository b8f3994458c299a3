//! Parties, the worlds that they come to, and tables of these.

ghost use Rattle.std.specs.Prelude.{◌≡◌, [], ◌∷◌, Some, None, map, option_map};
ghost use Rattle.dsa_book.specs.declared.answer.Reply.TheVariants.{Submit, Finish, Poll};
ghost use Rattle.dsa_book.specs.declared.answer.SubmitAnswer.TheVariants.{Accepted, Retry};
ghost use Rattle.dsa_book.specs.declared.{answer.Cause.TheVariants.{NotEnabled}, fate.Fate.TheVariants.{Completed}};
ghost use Rattle.dsa_book.specs.declared.answer.{FinishAnswer.TheVariants.{Done}, PollAnswer.TheVariants.{Nothing}};
ghost use Rattle.dsa_worked.specs.Setup.{row, ticket};
ghost use Rattle.dsa_keys.specs.Key.{key};
ghost use Rattle.dsa_keys.specs.Parties.{HaveEqualKeys, IsStored, labels_for, offer_at, sight_of};
ghost use Rattle.dsa_keys.specs.Parties.{world_after, world_after_all};
ghost use Rattle.dsa_keys_rows.specs.Holding.{state_of_lists, no_lists};
ghost use Rattle.dsa_keys_rows.specs.Parties.{at_first, one_client, the_offer, two_worlds};
ghost use Rattle.dsa_keys_rows.specs.Parties.{world_before, world_behind, world_that_ended};

/// What a client asks for where it stands, and what is seen of the step.
pub fn offers()
    ensures before { map (offer_at one_client (world_before at_first)) (0 ∷ 1 ∷ [])
        ≡ Some the_offer ∷ None ∷ [] }
    ensures behind { offer_at one_client (world_behind at_first (Poll Nothing) at_first) 0
        ≡ None }
    ensures labels { map (labels_for (world_before (state_of_lists no_lists)) the_offer)
        (19 ∷ 20 ∷ 21 ∷ [])
        ≡ 0 ∷ 5 ∷ 0 ∷ [] }
    ensures sight { sight_of (world_before at_first)
        (Submit (Accepted (ticket 3 0))) the_offer (state_of_lists no_lists)
        ≡ record {
          before = key (λ name. 0) at_first;
          after = key (λ name. 0) (state_of_lists no_lists);
          reply = Submit (Accepted (ticket 0 5));
          ends = [];
        } }
    ensures ends { (sight_of (world_that_ended (row 1 None (Completed 1) ∷ []))
        (Finish (Done 2)) the_offer
        (world_that_ended
        (row 1 None (Completed 1) ∷ row 4 (Some 1) (Completed 2) ∷ [])).state).ends
        ≡ row 104 None (Completed 2) ∷ [] }
{}

/// A submission to a device that is Off: the client is told to retry, and stands behind it.
pub fn moves()
    ensures made { option_map (λ w. w.places)
        (world_after one_client (world_before at_first) 0
        (Submit (Retry NotEnabled)))
        ≡ Some 1 }
    ensures other_reply { world_after one_client (world_before at_first) 0
        (Submit (Accepted (ticket 3 0)))
        ≡ None }
    ensures other_move { world_after one_client (world_before at_first) 1
        (Submit (Retry NotEnabled))
        ≡ None }
    ensures no_more { world_after_all one_client (world_before at_first)
        (record { move = 0; reply = Submit (Retry NotEnabled) }
        ∷ record { move = 0; reply = Submit (Retry NotEnabled) } ∷ [])
        ≡ None }
    ensures none_made { option_map (λ w. w.places)
        (world_after_all one_client (world_before at_first) [])
        ≡ Some 0 }
{}

/// Worlds have equal keys where the parties stand in the same places, and the states have.
pub fn worlds_with_equal_keys()
    ensures places { ¬ HaveEqualKeys (world_before at_first)
        (world_behind at_first (Poll Nothing) at_first) }
    ensures states { ¬ HaveEqualKeys (world_before at_first)
        (world_before (state_of_lists no_lists)) }
    ensures at_level { IsStored (two_worlds at_first (Poll Nothing) at_first) 0
        (world_before at_first) }
    ensures too_soon { ¬ IsStored (two_worlds at_first (Poll Nothing) at_first) 0
        (world_behind at_first (Poll Nothing) at_first) }
{}
