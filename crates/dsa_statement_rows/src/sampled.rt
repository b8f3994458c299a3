//! What random walks are made of, and what they found.

ghost use Rattle.std.specs.Prelude.{◌≡◌, ◌+◌, ◌≤◌, ℕ, [], List, None, fold, length, max, sum, false, ◌∷◌, Some};
ghost use Rattle.dsa_base.specs.Lists.{In};
ghost use Rattle.dsa_regs.specs.declared.Caps.{Caps};
ghost use Rattle.dsa_book.specs.declared.answer.Reply.{Reply};
ghost use Rattle.dsa_book.specs.declared.event.Event.{Event};
ghost use Rattle.dsa_keys.specs.Parties.{HaveEqualKeys, Made, World, world_after};
ghost use Rattle.dsa_parties.specs.Offers.{parties_of};
ghost use Rattle.dsa_parties.specs.declared.places.Move.{Move};
ghost use Rattle.dsa_parties.specs.declared.script.Script.{Script};
ghost use Rattle.dsa_explore.specs.Asks.{ask_of};
ghost use Rattle.dsa_explore.specs.Explored.{MayCome};
ghost use Rattle.dsa_explore.specs.Sampling.{walk_numbers, AreWalks, AreWalkSteps, HaveOneRowEach};
ghost use Rattle.dsa_explore.specs.Sampling.{IsAllFound, IsRandomWalk, IsSampled, IsWalkStep, LeadsBackAlone, StopsAt};
ghost use Rattle.dsa_explore.specs.Search.{Space};
ghost use Rattle.dsa_explore.specs.Walked.{IsFirst, space_of};
ghost use Rattle.dsa_explore.specs.declared.found.Found.{Found};
ghost use Rattle.dsa_explore.specs.declared.sampling.{Sampled.{Sampled}, Walks.{Walks}};

/// A step of a walk leads on to another key, and a walk goes as far as it can.
pub fn steps_of_a_walk()
    ensures on { (space : Space ℕ Move) (rows : List Found) (w w' : World ℕ) (made : Made Move)
        (step : IsWalkStep space rows 2 w made w')
        → world_after space.parties w made.move made.reply ≡ Some w' }
    ensures other_key { (space : Space ℕ Move) (rows : List Found) (w : World ℕ) (made : Made Move)
        → ¬ IsWalkStep space rows 2 w made w }
    ensures told { (space : Space ℕ Move) (rows : List Found) (w w' : World ℕ) (made : Made Move)
        (step : IsWalkStep space rows 2 w made w')
        → IsAllFound space.asks rows 2 w made.move made.reply w' }
    ensures no_step { (space : Space ℕ Move) (rows : List Found) (w v : World ℕ)
        (steps : AreWalkSteps space rows 2 w [] v) → w ≡ v }
    ensures first { (space : Space ℕ Move) (rows : List Found) (w v : World ℕ)
        (made : Made Move) (rest : List (Made Move))
        (steps : AreWalkSteps space rows 2 w (made ∷ rest) v)
        → IsWalkStep space rows 3 w made steps.0 }
    ensures rest { (space : Space ℕ Move) (rows : List Found) (w v : World ℕ)
        (made : Made Move) (rest : List (Made Move))
        (steps : AreWalkSteps space rows 2 w (made ∷ rest) v)
        → AreWalkSteps space rows 3 steps.0 rest v }
    ensures back { (space : Space ℕ Move) (rows : List Found) (w w' : World ℕ) (move : Move)
        (reply : Reply) → LeadsBackAlone space rows 2 w
        → world_after space.parties w move reply ≡ Some w' → HaveEqualKeys w' w }
    ensures back_told { (space : Space ℕ Move) (rows : List Found) (w w' : World ℕ) (move : Move)
        (reply : Reply) → LeadsBackAlone space rows 2 w
        → world_after space.parties w move reply ≡ Some w'
        → IsAllFound space.asks rows 2 w move reply w' }
{}

/// A walk begins with the first world and stops where it can go no further.
pub fn parts_of_a_walk()
    ensures made { (space : Space ℕ Move) (first : World ℕ) (rows : List Found)
        (walk : IsRandomWalk space first 4 rows 2)
        → AreWalkSteps space rows 0 first walk.moves walk.last }
    ensures count { (space : Space ℕ Move) (first : World ℕ) (rows : List Found)
        (walk : IsRandomWalk space first 4 rows 2) → 2 ≡ length walk.moves }
    ensures stops { (space : Space ℕ Move) (first : World ℕ) (rows : List Found)
        (walk : IsRandomWalk space first 4 rows 2) → StopsAt space first 4 rows 2 walk.last }
    ensures each { (space : Space ℕ Move) (first : World ℕ) (rows : List Found) (n : ℕ)
        (walks : AreWalks space first 4 rows 3 7 5)
        → In n walks.lengths → IsRandomWalk space first 4 rows n }
    ensures counted { (space : Space ℕ Move) (first : World ℕ) (rows : List Found)
        (walks : AreWalks space first 4 rows 3 7 5) → length walks.lengths ≡ 3 }
    ensures in_all { (space : Space ℕ Move) (first : World ℕ) (rows : List Found)
        (walks : AreWalks space first 4 rows 3 7 5) → 7 ≡ sum walks.lengths }
    ensures at_most { (space : Space ℕ Move) (first : World ℕ) (rows : List Found)
        (walks : AreWalks space first 4 rows 3 7 5) → 5 ≡ fold max 0 walks.lengths }
{}

/// What was found by walks, which begin where the set-up led to.
pub fn findings_of_walks()
    ensures begun { (caps : Caps) (script : Script) (events : List Event) (walks : Walks)
        (sampled : Sampled) (is : IsSampled caps script events walks sampled)
        → IsFirst caps script events is.first }
    ensures count { (caps : Caps) (script : Script) (events : List Event) (walks : Walks)
        (sampled : Sampled) (is : IsSampled caps script events walks sampled)
        → sampled.walks ≡ length (walk_numbers walks) }
    ensures made { (caps : Caps) (script : Script) (events : List Event) (walks : Walks)
        (sampled : Sampled) (is : IsSampled caps script events walks sampled)
        → AreWalks (space_of caps script) is.first (length events)
        sampled.explored.rows.items sampled.walks sampled.explored.tried sampled.explored.depth }
    ensures sound { (caps : Caps) (script : Script) (events : List Event) (walks : Walks)
        (sampled : Sampled) (row : Found) (is : IsSampled caps script events walks sampled)
        → In row sampled.explored.rows.items
        → MayCome (parties_of script) (ask_of script) is.first row.steps row.finding }
    ensures soon { (caps : Caps) (script : Script) (events : List Event) (walks : Walks)
        (sampled : Sampled) (row : Found) (is : IsSampled caps script events walks sampled)
        → In row sampled.explored.rows.items → row.steps ≤ sampled.explored.depth + 1 }
    ensures once { (caps : Caps) (script : Script) (events : List Event) (walks : Walks)
        (sampled : Sampled) (is : IsSampled caps script events walks sampled)
        → HaveOneRowEach sampled.explored.rows.items }
    ensures no_states { (caps : Caps) (script : Script) (events : List Event) (walks : Walks)
        (sampled : Sampled) (is : IsSampled caps script events walks sampled)
        → sampled.explored.states ≡ 0 }
    ensures no_ends { (caps : Caps) (script : Script) (events : List Event) (walks : Walks)
        (sampled : Sampled) (is : IsSampled caps script events walks sampled)
        → sampled.explored.ends ≡ None }
    ensures not_all { (caps : Caps) (script : Script) (events : List Event) (walks : Walks)
        (sampled : Sampled) (is : IsSampled caps script events walks sampled)
        → sampled.explored.is_complete ≡ false }
{}
