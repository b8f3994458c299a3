//! Laws of keys, each on a function with nothing to do. An event names an entry by its label, and
//! an entry that comes in has a label that no name has. Places and moves of parties are numbers.

ghost use Rattle.std.specs.Prelude.{◌≡◌, ℕ, Bool, List, length, Some};
ghost use Rattle.dsa_regs.specs.declared.Caps.{Caps};
ghost use Rattle.dsa_book.specs.declared.event.Event.{Event};
ghost use Rattle.dsa_book.specs.declared.answer.Reply.{Reply};
ghost use Rattle.dsa_book.specs.State.{State};
ghost use Rattle.dsa_laws.specs.WellFormed.{IsWellFormed};
ghost use Rattle.dsa_answers.specs.Alike.{TakeAlike};
ghost use Rattle.dsa_keys.specs.Labels.{Labels, IsFreshLabel, with_next_label};
ghost use Rattle.dsa_keys.specs.Key.{key};
ghost use Rattle.dsa_keys.specs.Steps.{IsLabelled, LeadsByLabel, HasSameStep, IsSameStep};
ghost use Rattle.dsa_keys.specs.Replays.{LabelledStep, AreFreshLabels, AreInUse, HasSameReplay, replay_by_labels};
ghost use Rattle.dsa_keys.specs.Short.{Descriptions, IsDescribed, BringsDescribed, HasSameShortStep, short_key};
ghost use Rattle.dsa_keys.specs.Parties.{Parties, World, Made, Stored, AreLawful, IsGoodWorld, HaveEqualKeys};
ghost use Rattle.dsa_keys.specs.Parties.{HasSameMove, IsStored, IsClosedTable, IsInTable, IsSearchedTable};
ghost use Rattle.dsa_keys.specs.Parties.{world_after, world_after_all};

/// A fresh label for the next name is in no key.
pub fn fresh_labels_are_in_no_key()
    ensures { (caps : Caps) (labels : Labels) (s : State) (label : ℕ)
        → IsLabelled caps labels s
        → IsFreshLabel labels s label
        → key (with_next_label labels s label) s ≡ key labels s }
{}

/// What may come in one of two states with equal keys may come in the other: the two steps tell the
/// same, end the same entries in the same way, and leave equal keys. So do any two such steps,
/// whatever the cell of an entry that comes in, if they take entries from the same queue.
pub fn equal_keys_make_the_same_steps()
    ensures { (caps : Caps) (labels others : Labels) (s s' t : State) (event : Event)
        (reply : Reply) (label : ℕ)
        → IsLabelled caps labels s
        → IsLabelled caps others t
        → IsFreshLabel labels s label
        → IsFreshLabel others t label
        → key labels s ≡ key others t
        → LeadsByLabel (with_next_label labels s label) s event reply s'
        → HasSameStep caps (with_next_label labels s label) (with_next_label others t label) s s' t
        event reply
        × ((t' : State) (reply' : Reply)
        → LeadsByLabel (with_next_label others t label) t event reply' t'
        → TakeAlike reply reply'
        → IsSameStep caps (with_next_label labels s label) (with_next_label others t label) s s' t
        t' reply reply') }
{}

/// Each replay from one of two states with equal keys has one from the other that tells the same
/// and leaves equal keys.
pub fn equal_keys_replay_the_same()
    ensures { (caps : Caps) (labels others labels' : Labels) (s t s' : State) (used : List ℕ)
        (steps : List LabelledStep)
        → IsLabelled caps labels s
        → IsLabelled caps others t
        → AreInUse used labels s
        → AreInUse used others t
        → AreFreshLabels used steps
        → key labels s ≡ key others t
        → replay_by_labels labels s steps ≡ Some (labels', s')
        → HasSameReplay labels others s t steps labels' s' }
{}

/// Where labels say what entries are, a short key says as much as a key, and each step that brings
/// in what its label says leaves it so.
pub fn short_keys_say_as_much()
    ensures keys { (described : Descriptions) (labels others : Labels) (s t : State)
        → IsDescribed described labels s
        → IsDescribed described others t
        → short_key labels s ≡ short_key others t
        → key labels s ≡ key others t }
    ensures kept { (caps : Caps) (described : Descriptions) (labels : Labels) (s s' : State)
        (event : Event) (reply : Reply)
        → IsWellFormed caps s
        → IsDescribed described labels s
        → BringsDescribed described labels s event
        → LeadsByLabel labels s event reply s'
        → IsDescribed described labels s' }
    ensures steps { (caps : Caps) (described : Descriptions) (labels others : Labels)
        (s s' t : State) (event : Event) (reply : Reply) (label : ℕ)
        → IsLabelled caps labels s
        → IsLabelled caps others t
        → IsFreshLabel labels s label
        → IsFreshLabel others t label
        → IsDescribed described labels s
        → IsDescribed described others t
        → BringsDescribed described (with_next_label labels s label) s event
        → short_key labels s ≡ short_key others t
        → LeadsByLabel (with_next_label labels s label) s event reply s'
        → HasSameShortStep caps described (with_next_label labels s label)
        (with_next_label others t label) s s' t event reply }
{}

/// Each move that may come in one of two worlds with equal keys may come in the other, whatever the
/// parties: it tells the same, and leads to worlds with equal keys.
pub fn worlds_with_equal_keys_make_the_same_moves()
    ensures { (caps : Caps) (parties : Parties ℕ ℕ) (good : World ℕ → Bool) (w w' v : World ℕ)
        (move : ℕ) (reply : Reply)
        → AreLawful caps parties good
        → IsGoodWorld caps good w
        → IsGoodWorld caps good v
        → HaveEqualKeys w v
        → world_after parties w move reply ≡ Some w'
        → HasSameMove caps parties good w w' v move reply }
{}

/// A table that no move leads out of has all that may come after any moves, and at a level that is
/// no later than it may come.
pub fn closed_tables_have_all_that_may_come()
    ensures { (caps : Caps) (parties : Parties ℕ ℕ) (good : World ℕ → Bool)
        (table : List (Stored ℕ)) (first w w' : World ℕ) (moves : List (Made ℕ)) (move : ℕ)
        (reply : Reply)
        → AreLawful caps parties good
        → IsClosedTable caps parties good table
        → IsGoodWorld caps good first
        → IsStored table 0 first
        → world_after_all parties first moves ≡ Some w
        → world_after parties w move reply ≡ Some w'
        → IsInTable caps parties good table (length moves) w w' move reply }
{}

/// No move leads out of a table in which each move of each world was tried, with whatever cell for
/// an entry that comes in, and once for each queue that an entry may be taken from.
pub fn searched_tables_are_closed()
    ensures { (caps : Caps) (parties : Parties ℕ ℕ) (good : World ℕ → Bool)
        (table : List (Stored ℕ))
        → AreLawful caps parties good
        → IsSearchedTable caps parties good table
        → IsClosedTable caps parties good table }
{}
