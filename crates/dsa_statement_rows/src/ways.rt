//! Levels of worlds, tries from them, schedules, endings, and what a search counted.

ghost use Rattle.std.specs.Prelude.{◌≡◌, ℕ, ◌+◌, ◌≤◌, ◌*◌, ◌∷◌, ◌++◌, [], List, Option, Some, None};
ghost use Rattle.std.specs.Prelude.{length, slice_get, vec_capacity, true, false};
ghost use Rattle.dsa_base.specs.Lists.{In};
ghost use Rattle.dsa_regs.specs.declared.Caps.{Caps};
ghost use Rattle.dsa_book.specs.Work.{qualifies};
ghost use Rattle.dsa_book.specs.declared.answer.Reply.{Reply};
ghost use Rattle.dsa_book.specs.declared.event.Event.{Event};
ghost use Rattle.dsa_book.specs.declared.event.Step.{Step};
ghost use Rattle.dsa_device.specs.Running.{running_at_first};
ghost use Rattle.dsa_keys.specs.Parties.{Parties, World, Stored, world_after};
ghost use Rattle.dsa_parties.specs.declared.places.Move.{Move, TheVariants.{Dispatch, Fetch}};
ghost use Rattle.dsa_parties.specs.declared.script.Script.{Script};
ghost use Rattle.dsa_parties.specs.{Offers.{parties_of}, Standing.{Standing}};
ghost use Rattle.dsa_explore.specs.declared.found.Ending.{Ending};
ghost use Rattle.dsa_explore.specs.declared.found.Explored.{Explored};
ghost use Rattle.dsa_explore.specs.declared.found.Finding.{Finding};
ghost use Rattle.dsa_explore.specs.declared.found.Found.{Found};
ghost use Rattle.dsa_explore.specs.declared.halting.Halt.TheVariants.{KeyBytes};
ghost use Rattle.dsa_explore.specs.declared.stored.Search.{Search};
ghost use Rattle.dsa_explore.specs.declared.stored.Try.{Try};
ghost use Rattle.dsa_explore.specs.declared.walked.Walked.{Walked};
ghost use Rattle.dsa_explore.specs.Bounds.{CanReachLongKey};
ghost use Rattle.dsa_explore.specs.Counted.{CountsStates, NeedsMoves};
ghost use Rattle.dsa_explore.specs.Ends.{AreEndingsOf, HasAlike, IsLastWorld, IsWorldNoted, LeadsNowhere};
ghost use Rattle.dsa_explore.specs.Explored.{AreFindings, AskOf, IsFound, MayCome};
ghost use Rattle.dsa_explore.specs.Findings.{findings_of};
ghost use Rattle.dsa_explore.specs.Halting.{IsMet};
ghost use Rattle.dsa_explore.specs.Ready.{CannotMake, is_filled};
ghost use Rattle.dsa_explore.specs.Schedules.{IsEventKept, IsMadeBy, schedule_moves, step_of_move};
ghost use Rattle.dsa_explore.specs.Search.{Space, AreRows, IsReached, IsStepNoted, IsTriedBy};
ghost use Rattle.dsa_explore.specs.Search.{queue_taken_from};
ghost use Rattle.dsa_explore.specs.Stored.{IsAdvanced, IsNewKey, last_level, node_levels};
ghost use Rattle.dsa_explore.specs.Tries.{ListsMove};
ghost use Rattle.dsa_explore.specs.Trying.{AreTried, IsAt, IsAttempted, IsFurther};
ghost use Rattle.dsa_explore.specs.Walked.{world_of};
ghost use Rattle.dsa_explore.specs.Ways.{AreByLevel, AreTold, IsNodeTo};
ghost use Rattle.dsa_explore.specs.WorkedSearch.{uneven_caps};
ghost use Rattle.dsa_seen.specs.Chains.{HasRoomFor, IsChained, IsLinked, strings_of};
ghost use Rattle.dsa_seen.specs.declared.chains.Chains.{Chains};
ghost use Rattle.dsa_statement_rows.specs.Searches.{still_parties, still_space, stored_at, node_from};

/// A later world has no lower level, and each one is a level behind the world that its node names.
pub fn levels_in_order()
    ensures rising { (table : List (Stored ℕ)) (x y : Stored ℕ) → AreByLevel table
        → slice_get table 1 ≡ Some x → slice_get table 2 ≡ Some y → x.level ≤ y.level }
    ensures second { (w v : World ℕ) (x : Stored ℕ) (tried : Try)
        → IsNodeTo (still_space true) (stored_at 0 w ∷ stored_at 5 v ∷ []) 2 (node_from 0 tried 1) x
        → x.level ≡ 1 }
    ensures told { (w : World ℕ) (tried : Try)
        → AreTold (still_space true) (node_from 0 tried 0 ∷ node_from 0 tried 1 ∷ [])
        (stored_at 0 w ∷ stored_at 1 w ∷ [])
        → IsNodeTo (still_space true) (stored_at 0 w ∷ stored_at 1 w ∷ []) 1 (node_from 0 tried 1)
        (stored_at 1 w) }
{}

/// A try that leads to another world says nothing of this one, and is noted a level later.
pub fn tries_from_worlds()
    ensures not_back { (space : Space ℕ Move) (first w : World ℕ) (old new : Search)
        (table more : List (Stored ℕ)) (x : Stored ℕ) (tried : Try)
        → IsFurther space first old table 0 x new more
        → IsTriedBy space.parties space.asks more new.rows.items (x.level + 1) x.world tried.by
        tried.queue
        → IsAttempted space first old table 0 x tried new w false }
    ensures later { (space : Space ℕ Move) (first w : World ℕ) (old new : Search)
        (table : List (Stored ℕ)) (tried : Try)
        (are : AreTried space first old table 0 (stored_at 4 w) (tried ∷ []) new)
        → IsTriedBy space.parties space.asks are.more new.rows.items 5 w tried.by tried.queue }
    ensures told { (asks : AskOf ℕ Move) (table : List (Stored ℕ)) (rows : List Found)
        (w v : World ℕ) (move : Move) (reply : Reply) (finding : Finding)
        → IsStepNoted asks table rows 3 w move reply v
        → In finding (findings_of (asks w.places move) w v reply) → IsFound rows 3 finding }
    ensures new_node { (old new : Search) (tried : Try) → old.nodes.items ≡ [] → old.front ≡ 4
        → IsNewKey old (7 ∷ []) 3 tried 0 new → new.nodes.items ≡ node_from 3 tried 4 ∷ [] }
    ensures front { (old : Search) → old.front ≡ 6 → IsAdvanced old 5 (record old { front = 6 }) }
    ensures front_behind { (old new : Search) → old.front ≡ 7 → ¬ IsAdvanced old 5 new }
    ensures stands { (space : Space ℕ Move) (first : World ℕ) (old new : Search)
        (table more : List (Stored ℕ)) (x : Stored ℕ)
        → IsFurther space first old table 0 x new more → IsAt space first new more 0 x }
    ensures nowhere { (space : Space ℕ Move) (x : Stored ℕ) (by : Move)
        → ((v : World ℕ) (told : Reply) → world_after space.parties x.world by told ≡ Some v → ⊥)
        → LeadsNowhere space x (record { by = by; queue = None }) }
    ensures other_queue { (script : Script) (w : World Standing) (by : Move)
        → ((v : World Standing) (told : Reply) → world_after (parties_of script) w by told ≡ Some v
        → queue_taken_from told ≡ None)
        → CannotMake script w (record { by = by; queue = Some 3 }) }
{}

/// A dispatch is listed with the queues that the engine may take from, another move with none.
pub fn moves_that_are_listed()
    ensures fetch { (script : Script) (walked : Walked)
        → ListsMove script walked (record { by = Fetch 0; queue = None } ∷ []) (Fetch 0) }
    ensures no_queue { (script : Script) (walked : Walked)
        → ((q : ℕ) → qualifies walked.machine.device.state.work 0 q ≡ false)
        → ListsMove script walked (record { by = Dispatch 0; queue = None } ∷ []) (Dispatch 0) }
{}

/// A schedule ends with the move that tells the finding, and each step of it is that of its move.
pub fn moves_of_schedules()
    ensures last { (parties : Parties ℕ ℕ) (asks : AskOf ℕ ℕ) (first : World ℕ) (steps : ℕ)
        (finding : Finding) (may : MayCome parties asks first steps finding)
        → length (schedule_moves may) ≡ length may.moves + 1 }
    ensures parts { (caps : Caps) (script : Script) (setup : List Event) (capacity count : ℕ)
        (steps : List Step) (walked : Walked)
        (kept : IsEventKept caps script setup capacity count steps walked)
        → steps ≡ kept.begun ++ kept.more }
    ensures step { (script : Script) (old new : Walked) (move : Move) (step : Step)
        → IsMadeBy script old new move step
        → step_of_move (parties_of script) (world_of old)
        (record { move = move; reply = step.reply }) ≡ Some step }
    ensures full { is_filled (record (running_at_first uneven_caps 0) { room = 5 }) ≡ true }
{}

/// A search counted as many states as it has keys, and no fewer moves lead to the deepest of them.
pub fn states_and_moves()
    ensures states { (parties : Parties ℕ Move) (bytes_of : World ℕ → List ℕ) (first : World ℕ)
        (explored : Explored) (counts : CountsStates parties bytes_of first explored)
        → length counts.keys ≡ explored.states }
    ensures none { (first : World ℕ) → NeedsMoves still_parties (λ w. w.places ∷ []) first 0 }
    ensures fewer { (parties : Parties ℕ Move) (bytes_of : World ℕ → List ℕ) (first w : World ℕ)
        (needs : NeedsMoves parties bytes_of first 7) → IsReached parties first 3 w
        → bytes_of w ≡ bytes_of needs.world → ⊥ }
    ensures long_key { (space : Space ℕ Move) (first : World ℕ) (search : Search)
        → IsMet space first 3 search KeyBytes
        → CanReachLongKey space.parties space.bytes_of first search.seen.width
        (last_level (node_levels search) + 1) }
    ensures incomplete { (parties : Parties ℕ Move) (asks : AskOf ℕ Move) (first : World ℕ)
        → AreFindings parties asks first [] false }
    ensures two_findings { (space : Space ℕ Move) (first : World ℕ) (a b : Found)
        → (a.finding ≡ b.finding → ⊥)
        → MayCome space.parties space.asks first a.steps a.finding
        → MayCome space.parties space.asks first b.steps b.finding
        → a.steps ≤ 9 → b.steps ≤ 9 → AreRows space first 9 (a ∷ b ∷ []) }
{}

/// A world that is no end has no ending, and an ending is listed with no more moves.
pub fn endings_of_worlds()
    ensures fewest { (endings : List Ending) (ending : Ending) (has : HasAlike endings ending)
        → has.other.steps ≤ ending.steps }
    ensures no_end { (script : Script) (endings : List Ending) (x : Stored Standing)
        → (IsLastWorld (parties_of script) x.world → ⊥) → IsWorldNoted script endings x endings }
    ensures none { (script : Script) (x : Stored Standing)
        → (IsLastWorld (parties_of script) x.world → ⊥) → AreEndingsOf script (x ∷ []) [] }
{}

/// Chains are linked, and have room for as many links as strings. Behind the last string is no
/// link.
#[tactic(auto, unfolding(dsa_seen::specs::Chains::hash, dsa_seen::specs::Chains::place_among))]
pub fn links_of_chains()
    ensures linked { (chains : Chains) → IsChained chains
        → IsLinked (strings_of chains) chains.heads.items chains.nexts.items }
    ensures nexts { (chains : Chains) → HasRoomFor chains 7 → 7 ≤ vec_capacity chains.nexts }
    ensures bytes { (chains : Chains) → HasRoomFor chains 7
        → 7 * chains.width ≤ vec_capacity chains.stored }
    ensures one { IsLinked ((97 ∷ []) ∷ []) (1 ∷ []) (0 ∷ []) }
{}
