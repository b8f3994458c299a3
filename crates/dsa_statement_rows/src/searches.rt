//! Worlds and tables of a search, the ways to its worlds, and what it met.

ghost use Rattle.std.specs.Prelude.{◌≡◌, ℕ, ◌≤◌, ◌∷◌, [], List, Some, map, take, true, false};
ghost use Rattle.std.specs.declared.alloc.Global.{Global};
ghost use Rattle.dsa_base.specs.Lists.{In};
ghost use Rattle.dsa_regs.specs.declared.Caps.{Caps};
ghost use Rattle.dsa_book.specs.State.{State};
ghost use Rattle.dsa_book.specs.Work.{qualifies};
ghost use Rattle.dsa_book.specs.declared.answer.DispatchAnswer.TheVariants.{Taken};
ghost use Rattle.dsa_book.specs.declared.answer.Reply.{Reply};
ghost use Rattle.dsa_book.specs.declared.answer.Reply.TheVariants as reply;
ghost use Rattle.dsa_book.specs.declared.event.Event.{Event};
ghost use Rattle.dsa_book.specs.declared.event.Step.{Step};
ghost use Rattle.dsa_device.specs.Running.{running_at_first};
ghost use Rattle.dsa_keys.specs.Labels.{Labels};
ghost use Rattle.dsa_key_bytes.specs.KeyBytes.{key_bytes};
ghost use Rattle.dsa_keys.specs.Short.{short_key};
ghost use Rattle.dsa_keys.specs.Parties.{Offer, Parties, World, Stored, offer_at, world_after, world_after_all};
ghost use Rattle.dsa_parties.specs.declared.places.Move.{Move, TheVariants.{Dispatch}};
ghost use Rattle.dsa_parties.specs.declared.script.Script.{Script};
ghost use Rattle.dsa_parties.specs.Offers.{label_ticket, parties_of};
ghost use Rattle.dsa_parties.specs.Standing.{Standing};
ghost use Rattle.dsa_parties.specs.Worked.{all_at, place_at};
ghost use Rattle.dsa_explore.specs.declared.found.Explored.{Explored};
ghost use Rattle.dsa_explore.specs.declared.found.Finding.{Finding};
ghost use Rattle.dsa_explore.specs.declared.halting.Halt.TheVariants.{Steps};
ghost use Rattle.dsa_explore.specs.declared.stored.Search.{Search};
ghost use Rattle.dsa_explore.specs.declared.stored.Try.{Try};
ghost use Rattle.dsa_explore.specs.declared.walked.Walked.{Walked};
ghost use Rattle.dsa_explore.specs.Counted.{IsKeyReached};
ghost use Rattle.dsa_explore.specs.Ends.{IsLed};
ghost use Rattle.dsa_explore.specs.Halting.{IsMet};
ghost use Rattle.dsa_explore.specs.Keys.{world_bytes};
ghost use Rattle.dsa_explore.specs.Schedules.{IsEventKept};
ghost use Rattle.dsa_explore.specs.Search.{Space, AreRows, IsFine, IsStoredWorld, IsKeyOf, IsStepNoted, IsWorldTable};
ghost use Rattle.dsa_explore.specs.{Ready.{is_filled}, Stored.{node_levels, IsStoredAt}};
ghost use Rattle.dsa_explore.specs.Trying.{HasRoomBehind, IsExpandedAt, IsSearch};
ghost use Rattle.dsa_explore.specs.Tries.{ListsMove};
ghost use Rattle.dsa_explore.specs.Walked.{NeedsDepth, world_of};
ghost use Rattle.dsa_explore.specs.Ways.{AreByLevel, AreTold, IsNodeTo, IsTakenStep, TellWays};
ghost use Rattle.dsa_explore.specs.WorkedEnds.{polling_parties, still_script};
ghost use Rattle.dsa_explore.specs.WorkedSearch.{quiet_world, uneven_caps};
ghost use Rattle.dsa_explore.specs.WorkedSetup.{caps_without_engines};
ghost use Rattle.dsa_seen.specs.Chains.{IsChained, IsLatest, strings_of};
ghost use Rattle.dsa_seen.specs.declared.chains.Chains.{Chains};
ghost use Rattle.dsa_statement_rows.specs.Searches.{still_asks, still_parties, still_space, stored_at, node_from};

/// A fine world is a good one; a search begins with the first world, at the front, and a table
/// without it is that of no search.
pub fn worlds_of_a_search()
    ensures not_good { (w : World ℕ) → ¬ IsFine (still_space false) w }
    ensures begun { (space : Space ℕ Move) (w : World ℕ) → IsFine space w
        → IsKeyOf space (7 ∷ []) w
        → IsWorldTable space w ((7 ∷ []) ∷ []) (0 ∷ []) 0 (stored_at 0 w ∷ []) }
    ensures no_begin { (search : Search)
        → ¬ IsSearch (still_space true) (quiet_world []) search [] }
{}

/// A table of worlds has no level behind the place of its world, each world of it is stored so, and
/// what an expanded world leaves is a search; a finding has one row.
pub fn tables_of_a_search()
    ensures too_high { (w : World ℕ) → ¬ AreByLevel (stored_at 1 w ∷ []) }
    ensures stored { (space : Space ℕ Move) (first : World ℕ) (keys : List (List ℕ))
        (levels : List ℕ) (x : Stored ℕ) (table : IsWorldTable space first keys levels 9 (x ∷ []))
        → IsStoredWorld space first x }
    ensures expanded { (space : Space ℕ Move) (first : World ℕ) (old new : Search)
        (table : List (Stored ℕ)) (x : Stored ℕ)
        (is : IsExpandedAt space first old table 0 x new)
        → IsSearch space first new is.more }
    ensures two_rows { (space : Space ℕ Move) (first : World ℕ) (finding : Finding)
        → ¬ AreRows space first 9
        (record { finding = finding; steps = 3 } ∷ record { finding = finding; steps = 4 } ∷ []) }
{}

/// After a set-up of so many events a history has room for one step after level 4, and for none
/// after level 5.
pub fn room_after_worlds()
    ensures room { (w : World ℕ) → HasRoomBehind 1_048_571 (stored_at 4 w ∷ []) }
    ensures no_room { (w : World ℕ) → ¬ HasRoomBehind 1_048_571 (stored_at 5 w ∷ []) }
    ensures later { (w : World ℕ)
        → ¬ HasRoomBehind 1_048_571 (stored_at 4 w ∷ stored_at 5 w ∷ []) }
{}

/// A step is noted only where the world that it leads to is stored, and soon enough. A world from
/// level 5 is expanded where the front is 6.
pub fn steps_that_are_noted()
    ensures not_stored { (w : World ℕ) (move : Move) (reply : Reply)
        → ¬ IsStepNoted still_asks [] [] 3 w move reply w }
    ensures too_late { (w : World ℕ) (move : Move) (reply : Reply)
        → ¬ IsStepNoted still_asks (stored_at 4 w ∷ []) [] 3 w move reply w }
    ensures noted { (move : Move) (reply : Reply)
        → IsStepNoted still_asks (stored_at 3 (quiet_world []) ∷ []) [] 3 (quiet_world []) move
        reply (quiet_world []) }
    ensures front { (old new : Search) (w : World ℕ) (table : List (Stored ℕ))
        → IsExpandedAt (still_space true) w old table 0 (stored_at 5 w) new
        → new.front ≡ 6 }
{}

/// A key that was not there comes in under the next number, with a node at the front.
pub fn keys_that_come_in()
    ensures new { (old new : Search) (tried : Try)
        → old.seen.strings ≡ (8 ∷ []) ∷ []
        → new.seen.strings ≡ (8 ∷ []) ∷ (7 ∷ []) ∷ []
        → old.nodes.items ≡ node_from 0 tried 0 ∷ []
        → old.front ≡ 4
        → new.nodes.items ≡ node_from 0 tried 0 ∷ node_from 3 tried 4 ∷ []
        → IsStoredAt old (7 ∷ []) 3 tried 1 new }
    ensures old { (search : Search) (tried : Try)
        → search.seen.strings ≡ (8 ∷ []) ∷ (7 ∷ []) ∷ []
        → IsStoredAt search (7 ∷ []) 3 tried 1 search }
    ensures none { (search : Search) (tried : Try)
        → search.seen.strings ≡ []
        → ¬ IsStoredAt search (7 ∷ []) 3 tried 0 search }
{}

/// What nodes tell: of the first world nothing, of each other one a step from a world before it.
pub fn ways_to_worlds()
    ensures first { (w : World ℕ) (tried : Try)
        → TellWays (still_space true) w (node_from 0 tried 0 ∷ []) (stored_at 0 w ∷ []) }
    ensures other_level { (w : World ℕ) (tried : Try)
        → ¬ TellWays (still_space true) w (node_from 0 tried 1 ∷ []) (stored_at 0 w ∷ []) }
    ensures nothing_told { (w : World ℕ) (tried : Try)
        → AreTold (still_space true) (node_from 0 tried 0 ∷ []) (stored_at 0 w ∷ []) }
    ensures from_itself { (x : Stored ℕ) (tried : Try) (table : List (Stored ℕ))
        → ¬ IsNodeTo (still_space true) table 3 (node_from 3 tried 1) x }
{}

/// A try leads on by a reply that takes an entry from its queue.
pub fn tries_that_lead_on()
    ensures from_its_queue { (parties : Parties ℕ Move) (w w' : World ℕ) (by : Move)
        → world_after parties w by (reply.Dispatch (Taken (label_ticket 7) 3)) ≡ Some w'
        → IsLed parties w (record { by = by; queue = Some 3 }) w' }
    ensures nowhere { (w w' : World ℕ) (tried : Try) → ¬ IsLed still_parties w tried w' }
    ensures no_step { (w w' : World ℕ) (tried : Try)
        → ¬ IsTakenStep (still_space true) w tried w' }
{}

/// A search met the bound of steps where a history has no room for one more; a key is reached with
/// so many moves at most; the depth of a search is needed only where its parties can begin.
pub fn bounds_that_were_met()
    ensures steps { (first : World ℕ) (search : Search)
        → IsMet (still_space true) first 1_048_576 search Steps }
    ensures room { (first : World ℕ) (search : Search) → search.nodes.items ≡ []
        → ¬ IsMet (still_space true) first 1_048_575 search Steps }
    ensures moves { (bytes : List ℕ)
        (key : IsKeyReached polling_parties (λ w. w.places ∷ []) (quiet_world []) 3 bytes)
        → key.steps ≤ 3 }
    ensures no_begin { (memory : Global) (explored : Explored)
        → ¬ NeedsDepth caps_without_engines (still_script memory) [] explored }
{}

/// A dispatch is tried with each queue that the engine may take from; devices whose steps are kept
/// are where the moves lead.
pub fn moves_that_are_tried()
    ensures queue { (script : Script) (walked : Walked) (tries : List Try) (offer : Offer)
        → ListsMove script walked tries (Dispatch 0)
        → offer_at (parties_of script) (world_of walked) (Dispatch 0) ≡ Some offer
        → qualifies walked.machine.device.state.work 0 3 ≡ true
        → In (record { by = Dispatch 0; queue = Some 3 }) tries }
    ensures leads { (caps : Caps) (script : Script) (setup : List Event) (capacity count : ℕ)
        (steps : List Step) (walked : Walked)
        (kept : IsEventKept caps script setup capacity count steps walked)
        → world_after_all (parties_of script) kept.first kept.moves ≡ Some (world_of walked) }
{}

/// The bytes of a world begin with those of where its parties stand.
#[tactic(auto, unfolding(dsa_key_bytes::specs::Numbers::number_bytes))]
pub fn bytes_of_worlds()
    ensures places { (labels : Labels) (s : State) → take 9 (world_bytes (record {
      places = all_at (place_at 0 3) (place_at 4 2) 1 300;
      labels = labels;
      state = s;
    })) ≡ 2 ∷ 0 ∷ 3 ∷ 4 ∷ 2 ∷ 2 ∷ 1 ∷ 172 ∷ 2 ∷ [] }
{}

/// A string of another place is not the latest of a place.
#[tactic(auto, unfolding(dsa_seen::specs::Chains::hash, dsa_seen::specs::Chains::place_among))]
pub fn strings_of_other_places()
    ensures first { ¬ IsLatest 7 ((97 ∷ []) ∷ (98 ∷ []) ∷ (100 ∷ []) ∷ []) 4 1 1 }
{}

/// A string that is stored twice is in no chains.
pub fn chains_of_strings()
    ensures twice { (chains : Chains) → strings_of chains ≡ (7 ∷ []) ∷ (7 ∷ []) ∷ []
        → ¬ IsChained chains }
{}

/// The levels of nodes, and devices whose histories are full.
pub fn nodes_and_histories()
    ensures levels { (search : Search) (tried : Try)
        → search.nodes.items ≡ node_from 1 tried 2 ∷ [] → node_levels search ≡ 2 ∷ [] }
    ensures filled { map (λ capacity. is_filled (running_at_first uneven_caps capacity))
        (0 ∷ 9 ∷ []) ≡ true ∷ false ∷ [] }
{}

/// Where the parties of two worlds stand alike, the bytes of the worlds are equal only if those of
/// their keys are.
pub fn bytes_of_keys_in_worlds()
    ensures { (w v : World Standing) → w.places ≡ v.places → world_bytes w ≡ world_bytes v
        → key_bytes (short_key w.labels w.state) ≡ key_bytes (short_key v.labels v.state) }
{}
