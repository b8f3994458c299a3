//! Where searches begin, and the nodes of their worlds.

ghost use Rattle.std.specs.Prelude.{◌≡◌, List, Some, length, map, slice_get, true};
ghost use Rattle.std.specs.Prelude.{ℕ};
ghost use Rattle.dsa_regs.specs.declared.Caps.{Caps};
ghost use Rattle.dsa_book.specs.Machine.{is_run, replay, stored_steps};
ghost use Rattle.dsa_book.specs.State.{State};
ghost use Rattle.dsa_book.specs.declared.event.{Event.{Event}, Step.{Step}};
ghost use Rattle.dsa_keys.specs.Parties.{Stored, World};
ghost use Rattle.dsa_parties.specs.Standing.{standing_first, Standing};
ghost use Rattle.dsa_parties.specs.declared.{places.Move.{Move}, script.Script.{Script}};
ghost use Rattle.dsa_explore.specs.{Search.{Space}, Walked.{HasNoDevice, IsFirst, IsLedTo}, Ways.{AreTold, TellWays}};
ghost use Rattle.dsa_explore.specs.declared.stored.Node.{Node};

/// A search begins where the set-up led a device to, with all parties at their first steps.
pub fn first_worlds()
    ensures device { (caps : Caps) (script : Script) (events : List Event) (w : World Standing)
        (is : IsFirst caps script events w)
        → ¬ HasNoDevice caps (length events) }
    ensures led { (caps : Caps) (script : Script) (events : List Event) (w : World Standing)
        (is : IsFirst caps script events w)
        → IsLedTo caps events w.state }
    ensures places { (caps : Caps) (script : Script) (events : List Event) (w : World Standing)
        (is : IsFirst caps script events w)
        → w.places ≡ standing_first script }
    ensures no_names { (caps : Caps) (script : Script) (events : List Event) (w : World Standing)
        (is : IsFirst caps script events w)
        → w.state.work.setup.next_name ≡ 0 }
    ensures events { (caps : Caps) (events : List Event) (s : State) (is : IsLedTo caps events s)
        → map (λ (step : Step). step.event) is.steps ≡ events }
    ensures allowed { (caps : Caps) (events : List Event) (s : State) (is : IsLedTo caps events s)
        → is_run caps (length events) is.steps ≡ true }
    ensures replayed { (caps : Caps) (events : List Event) (s : State) (is : IsLedTo caps events s)
        → replay caps (stored_steps is.steps) ≡ Some s }
{}

/// Nodes have the levels of their worlds, and those of level 0 are the first one.
pub fn nodes_of_worlds()
    ensures levels { (space : Space ℕ Move) (first : World ℕ) (nodes : List Node)
        (table : List (Stored ℕ)) (x : Stored ℕ) (tell : TellWays space first nodes table)
        (node : Node)
        → slice_get nodes 2 ≡ Some node → slice_get table 2 ≡ Some x → node.level ≡ x.level }
    ensures begin { (space : Space ℕ Move) (first : World ℕ) (nodes : List Node)
        (table : List (Stored ℕ)) (x : Stored ℕ) (tell : TellWays space first nodes table)
        → slice_get table 2 ≡ Some x → x.level ≡ 0 → first ≡ x.world }
    ensures told { (space : Space ℕ Move) (first : World ℕ) (nodes : List Node)
        (table : List (Stored ℕ)) (x : Stored ℕ) (tell : TellWays space first nodes table)
        → AreTold space nodes table }
{}
