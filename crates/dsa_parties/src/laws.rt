//! Laws of the parties of a script, each on a function with nothing to do.

ghost use Rattle.std.specs.Prelude.{◌≡◌, List, Some};
ghost use Rattle.dsa_regs.specs.declared.Caps.{Caps};
ghost use Rattle.dsa_book.specs.declared.answer.Reply.{Reply};
ghost use Rattle.dsa_book.specs.declared.event.Step.{Step};
ghost use Rattle.dsa_book.specs.declared.fate.FateRow.{FateRow};
ghost use Rattle.dsa_book.specs.State.{State};
ghost use Rattle.dsa_book.specs.Machine.{replay};
ghost use Rattle.dsa_keys.specs.Key.{Key};
ghost use Rattle.dsa_keys.specs.Labels.{Labels, labelled_reply};
ghost use Rattle.dsa_keys.specs.Steps.{IsLabelled};
ghost use Rattle.dsa_keys.specs.Short.{BringsDescribed, IsDescribed};
ghost use Rattle.dsa_keys.specs.Parties.{AreLawful, IsGoodWorld, Offer, World, labels_for, offer_at, world_after};
ghost use Rattle.dsa_parties.specs.declared.places.Move.{Move};
ghost use Rattle.dsa_parties.specs.declared.script.Script.{Script};
ghost use Rattle.dsa_parties.specs.Described.{described_by};
ghost use Rattle.dsa_parties.specs.Good.{first_world, is_good};
ghost use Rattle.dsa_parties.specs.Offers.{IsListed, offer_of, parties_of};
ghost use Rattle.dsa_parties.specs.Standing.{Standing, standing_after};
ghost use Rattle.dsa_parties.specs.Watches.{came_after};

/// The parties of a script never ask for a label that a name has, and they begin in a good world,
/// whatever history led to its state, if that gave no name.
pub fn scripts_are_lawful_parties()
    ensures lawful { (caps : Caps) (script : Script)
        → AreLawful caps (parties_of script) (is_good script) }
    ensures first { (caps : Caps) (script : Script) (labels : Labels) (history : List Step)
        (s : State)
        → replay caps history ≡ Some s
        → s.work.setup.next_name ≡ 0
        → IsGoodWorld caps (is_good script) (first_world script labels s) }
{}

/// Each move brings in what its label says; so where labels say what entries are, they do after it,
/// and they do at first.
pub fn labels_of_scripts_say_what_entries_are()
    ensures moves { (caps : Caps) (script : Script) (w : World Standing) (move : Move)
        (offer : Offer)
        → IsLabelled caps w.labels w.state
        → offer_at (parties_of script) w move ≡ Some offer
        → BringsDescribed (described_by script) (labels_for w offer) w.state offer.event }
    ensures kept { (caps : Caps) (script : Script) (w w' : World Standing) (move : Move)
        (reply : Reply)
        → IsGoodWorld caps (is_good script) w
        → IsDescribed (described_by script) w.labels w.state
        → world_after (parties_of script) w move reply ≡ Some w'
        → IsDescribed (described_by script) w'.labels w'.state }
    ensures first { (caps : Caps) (script : Script) (labels : Labels) (history : List Step)
        (s : State)
        → replay caps history ≡ Some s
        → s.work.setup.next_name ≡ 0
        → IsDescribed (described_by script) labels s }
{}

/// Where parties stand after a reply, and what they remember, does not depend on the names in it.
pub fn parties_do_not_see_names()
    ensures places { (script : Script) (stand : Standing) (move : Move) (labels : Labels)
        (reply : Reply)
        → standing_after script stand move (labelled_reply labels reply)
        ≡ standing_after script stand move reply }
    ensures memory { (script : Script) (stand : Standing) (move : Move) (labels : Labels)
        (reply : Reply) (ends : List FateRow)
        → came_after script stand move (labelled_reply labels reply) ends
        ≡ came_after script stand move reply ends }
{}

/// Each move that asks for something is in the list of moves, or ends an entry.
pub fn moves_are_listed()
    ensures { (script : Script) (stand : Standing) (key : Key) (move : Move) (offer : Offer)
        → offer_of script stand key move ≡ Some offer
        → IsListed script move }
{}
