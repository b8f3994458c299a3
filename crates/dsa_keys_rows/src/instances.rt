//! Instances of the laws: what they say of worked histories, and of a search made by hand.

ghost use Rattle.std.specs.Prelude.{◌≡◌, ℕ, [], ◌∷◌, List, Some};
ghost use Rattle.dsa_desc.specs.declared.Outcome.TheVariants.{Success};
ghost use Rattle.dsa_regs.specs.declared.Caps.{Caps};
ghost use Rattle.dsa_book.specs.declared.answer.FinishAnswer.TheVariants.{Done};
ghost use Rattle.dsa_book.specs.declared.answer.Reply.{Reply};
ghost use Rattle.dsa_book.specs.declared.answer.Reply.TheVariants as reply;
ghost use Rattle.dsa_book.specs.declared.event.Event.TheVariants as event;
ghost use Rattle.dsa_book.specs.declared.event.Step.{Step};
ghost use Rattle.dsa_book.specs.State.{State};
ghost use Rattle.dsa_book.specs.Machine.{Reaches};
ghost use Rattle.dsa_worked.specs.Setup.{ticket};
ghost use Rattle.dsa_worked.specs.Uneven.{three_two_one};
ghost use Rattle.dsa_keys.specs.Labels.{Labels, with_next_label};
ghost use Rattle.dsa_keys.specs.Replays.{HasSameReplay, replay_by_labels};
ghost use Rattle.dsa_keys.specs.Steps.{HasSameStep, IsLabelled, LeadsByLabel};
ghost use Rattle.dsa_keys.specs.Parties.{World, AreLawful, IsInTable, IsSearchedTable, labels_for, world_after};
ghost use Rattle.dsa_keys_rows.specs.Holding.{listed};
ghost use Rattle.dsa_keys_rows.specs.Histories.{one_way, drain_behind, drain_behind_elsewhere, two_ends};
ghost use Rattle.dsa_keys_rows.specs.Parties.{one_client, the_offer, two_worlds, unnamed_before, world_before};

/// States that histories lead to are labelled, and those with equal keys make the same step.
pub fn steps_of_two_histories()
    ensures labelled { (s : State)
        → Reaches three_two_one one_way s
        → IsLabelled three_two_one (listed (5 ∷ 6 ∷ [])) s }
    ensures one_label_twice { (s : State)
        → Reaches three_two_one one_way s
        → ¬ IsLabelled three_two_one (listed (5 ∷ 5 ∷ [])) s }
    ensures same_step { (s s' t : State)
        → Reaches three_two_one drain_behind s
        → Reaches three_two_one drain_behind_elsewhere t
        → LeadsByLabel (with_next_label (listed (5 ∷ 6 ∷ [])) s 7) s
        (event.Finish 1 (ticket 0 5) Success) (reply.Finish (Done 1)) s'
        → HasSameStep three_two_one (with_next_label (listed (5 ∷ 6 ∷ [])) s 7)
        (with_next_label (listed (4 ∷ 5 ∷ 6 ∷ [])) t 7) s s' t
        (event.Finish 1 (ticket 0 5) Success) (reply.Finish (Done 1)) }
    ensures same_replay { (s s' t : State) (labels' : Labels)
        → Reaches three_two_one drain_behind s
        → Reaches three_two_one drain_behind_elsewhere t
        → replay_by_labels (listed (5 ∷ 6 ∷ [])) s two_ends ≡ Some (labels', s')
        → HasSameReplay (listed (5 ∷ 6 ∷ [])) (listed (4 ∷ 5 ∷ 6 ∷ [])) s t two_ends labels' s' }
{}

/// The table of a client with one submission, from any state in which no name was given, is that of
/// a search.
pub fn a_search_by_hand()
    ensures lawful { (caps : Caps) → AreLawful caps one_client unnamed_before }
    ensures searched { (caps : Caps) (history : List Step) (s s' : State) (reply : Reply)
        → Reaches caps history s
        → s.work.setup.next_name ≡ 0
        → LeadsByLabel (labels_for (world_before s) the_offer) s the_offer.event reply s'
        → IsSearchedTable caps one_client unnamed_before (two_worlds s reply s') }
    ensures in_table { (caps : Caps) (history : List Step) (s s' : State) (reply other : Reply)
        (w' : World ℕ)
        → Reaches caps history s
        → s.work.setup.next_name ≡ 0
        → LeadsByLabel (labels_for (world_before s) the_offer) s the_offer.event reply s'
        → world_after one_client (world_before s) 0 other ≡ Some w'
        → IsInTable caps one_client unnamed_before (two_worlds s reply s') 0 (world_before s) w' 0
        other }
{}
