//! Laws of searches, each on a function with nothing to do. Places and moves of parties are
//! numbers.

ghost use Rattle.std.specs.Prelude.{◌≡◌, ℕ, ◌+◌, List, Option, Some, true, slice_get};
ghost use Rattle.dsa_book.specs.declared.answer.Reply.{Reply};
ghost use Rattle.dsa_keys.specs.Parties.{World, Stored, HaveEqualKeys, world_after};
ghost use Rattle.dsa_explore.specs.declared.found.Finding.{Finding};
ghost use Rattle.dsa_explore.specs.declared.found.Found.{Found};
ghost use Rattle.dsa_explore.specs.Explored.{AreFindings, MayCome};
ghost use Rattle.dsa_explore.specs.Search.{Space, IsFine, IsLawfulSpace, IsWorldTable, AreRows, IsExpanded};
ghost use Rattle.dsa_explore.specs.Search.{IsStepNoted, IsTriedBy, queue_taken_from};

/// A search that expanded each world that it stored found all that may come.
pub fn searches_find_all_that_may_come()
    ensures { (space : Space ℕ ℕ) (first : World ℕ) (keys : List (List ℕ)) (levels : List ℕ)
        (front : ℕ) (rows : List Found) (table : List (Stored ℕ))
        → IsLawfulSpace space
        → IsFine space first
        → IsWorldTable space first keys levels front table
        → AreRows space first front rows
        → ((i : ℕ) (x : Stored ℕ) → slice_get table i ≡ Some x
        → IsExpanded space.parties space.asks table rows (x.level + 1) x.world)
        → AreFindings space.parties space.asks first rows true }
{}

/// One reply to a move stands for all that take an entry from the same queue, and for all worlds
/// with the same key.
pub fn one_reply_stands_for_all()
    ensures replies { (space : Space ℕ ℕ) (table : List (Stored ℕ)) (rows : List Found)
        (level move : ℕ) (v v' : World ℕ) (reply : Reply)
        → IsLawfulSpace space
        → IsFine space v
        → world_after space.parties v move reply ≡ Some v'
        → IsStepNoted space.asks table rows level v move reply v'
        → IsTriedBy space.parties space.asks table rows level v move (queue_taken_from reply) }
    ensures worlds { (space : Space ℕ ℕ) (table : List (Stored ℕ)) (rows : List Found)
        (level move : ℕ) (w v : World ℕ) (queue : Option ℕ)
        → IsLawfulSpace space
        → IsFine space w
        → IsFine space v
        → HaveEqualKeys w v
        → IsTriedBy space.parties space.asks table rows level v move queue
        → IsTriedBy space.parties space.asks table rows level w move queue }
{}

/// What may come from one of two worlds with equal keys may come from the other, with as many
/// steps.
pub fn worlds_with_equal_keys_tell_the_same()
    ensures { (space : Space ℕ ℕ) (w v : World ℕ) (steps : ℕ) (finding : Finding)
        → IsLawfulSpace space
        → IsFine space w
        → IsFine space v
        → HaveEqualKeys w v
        → MayCome space.parties space.asks w steps finding
        → MayCome space.parties space.asks v steps finding }
{}
