//! What a search keeps of the ways to its worlds.

ghost use Rattle.std.specs.Prelude.{◌≡◌, ◌+◌, ◌≤◌, ◌^◌, ℕ, List, Some, length, slice_get, true};
ghost use Rattle.dsa_base.specs.Lists.{In};
ghost use Rattle.dsa_regs.specs.declared.Caps.{Caps};
ghost use Rattle.dsa_book.specs.declared.event.Event.{Event};
ghost use Rattle.dsa_keys.specs.Parties.{HaveEqualKeys, IsStored, Stored, World};
ghost use Rattle.dsa_parties.specs.Offers.{parties_of};
ghost use Rattle.dsa_parties.specs.Standing.{Standing};
ghost use Rattle.dsa_parties.specs.declared.script.Script.{Script};
ghost use Rattle.dsa_explore.specs.Kept.{IsVisitOf, KeepsWays};
ghost use Rattle.dsa_explore.specs.Search.{IsReached};
ghost use Rattle.dsa_explore.specs.Walked.{IsFirst, space_of, world_of};
ghost use Rattle.dsa_explore.specs.Ways.{AreByLevel, AreRowsTold, TellWays};
ghost use Rattle.dsa_explore.specs.declared.found.Found.{Found};
ghost use Rattle.dsa_explore.specs.declared.search.Searched.{Searched};
ghost use Rattle.dsa_explore.specs.declared.visiting.Visited.{Visited};

/// The table of a search has its states by level, each of them reached, and its nodes say how.
pub fn tables_that_are_kept()
    ensures begun { (caps : Caps) (script : Script) (setup : List Event) (searched : Searched)
        (keeps : KeepsWays caps script setup searched) → IsFirst caps script setup keeps.first }
    ensures count { (caps : Caps) (script : Script) (setup : List Event) (searched : Searched)
        (keeps : KeepsWays caps script setup searched)
        → length keeps.table ≡ searched.explored.states }
    ensures ways { (caps : Caps) (script : Script) (setup : List Event) (searched : Searched)
        (keeps : KeepsWays caps script setup searched)
        → TellWays (space_of caps script) keeps.first searched.nodes.items keeps.table }
    ensures worlds { (caps : Caps) (script : Script) (setup : List Event) (searched : Searched)
        (x : Stored Standing) (keeps : KeepsWays caps script setup searched)
        → In x keeps.table → IsReached (parties_of script) keeps.first x.level x.world }
    ensures by_level { (caps : Caps) (script : Script) (setup : List Event) (searched : Searched)
        (keeps : KeepsWays caps script setup searched) → AreByLevel keeps.table }
    ensures all { (caps : Caps) (script : Script) (setup : List Event) (searched : Searched)
        (w : World Standing) (keeps : KeepsWays caps script setup searched)
        → searched.explored.is_complete ≡ true
        → IsReached (parties_of script) keeps.first 3 w → IsStored keeps.table 3 w }
    ensures early { (caps : Caps) (script : Script) (setup : List Event) (searched : Searched)
        (x : Stored Standing) (keeps : KeepsWays caps script setup searched)
        → In x keeps.table → length setup + x.level ≤ 2 ^ 20 }
{}

/// A step from a state that is kept shows each row, and a history has room for it.
pub fn rows_that_are_kept()
    ensures told { (caps : Caps) (script : Script) (setup : List Event) (searched : Searched)
        (keeps : KeepsWays caps script setup searched)
        → AreRowsTold (space_of caps script) keeps.table searched.explored.rows.items }
    ensures room { (caps : Caps) (script : Script) (setup : List Event) (searched : Searched)
        (row : Found) (keeps : KeepsWays caps script setup searched)
        → In row searched.explored.rows.items → length setup + row.steps ≤ 2 ^ 20 }
{}

/// A device that visits a state has its key, and came there with as many moves.
pub fn visits_of_states()
    ensures there { (caps : Caps) (script : Script) (setup : List Event) (searched : Searched)
        (keeps : KeepsWays caps script setup searched) (visited : Visited) (x : Stored Standing)
        → IsVisitOf keeps 2 visited → slice_get keeps.table 2 ≡ Some x
        → HaveEqualKeys (world_of visited.walked.value) x.world }
    ensures level { (caps : Caps) (script : Script) (setup : List Event) (searched : Searched)
        (keeps : KeepsWays caps script setup searched) (visited : Visited) (x : Stored Standing)
        → IsVisitOf keeps 2 visited → slice_get keeps.table 2 ≡ Some x
        → visited.level ≡ x.level }
{}
