//! Parties that are lawful, and what is noted of their moves.

ghost use Rattle.std.specs.Prelude.{◌≡◌, ◌==◌, ◌&&◌, ◌+◌, ◌⊎◌, ℕ, List, Some, false, true};
ghost use Rattle.dsa_base.specs.Lists.{In};
ghost use Rattle.dsa_answers.specs.Alike.{TakeAlike};
ghost use Rattle.dsa_book.specs.declared.answer.Reply.{Reply};
ghost use Rattle.dsa_book.specs.declared.event.Event.TheVariants as event;
ghost use Rattle.dsa_keys.specs.Parties.{world_after, AreLawful, HaveEqualKeys, IsStored, Parties, Stored, WasTried, World};
ghost use Rattle.dsa_parties.specs.declared.places.Move.{Move};
ghost use Rattle.dsa_explore.specs.Ends.{AreApart, AreLikeEndings, HasAlike, IsEndingNoted, IsLed, LeadsBack};
ghost use Rattle.dsa_explore.specs.{Rows.{AddsRows, AreDistinct, HasFinding}, Search.{Space}, Trying.{IsThere}};
ghost use Rattle.dsa_explore.specs.{WorkedSchedules.{asking_for}, WorkedSearch.{idle_parties, uneven_caps}};
ghost use Rattle.dsa_explore.specs.declared.found.{Ending.{Ending}, Finding.{Finding}, Found.{Found}};
ghost use Rattle.dsa_explore.specs.declared.stored.Try.{Try};

/// Parties are lawful that ask for nothing, that are in no good world, or that are in worlds alone
/// where two names have one label.
pub fn parties_that_are_lawful()
    ensures idle { AreLawful uneven_caps idle_parties (λ w. true) }
    ensures no_world { AreLawful uneven_caps (asking_for event.Poll) (λ w. false) }
    ensures one_label { AreLawful uneven_caps (asking_for event.Poll)
        (λ w. (w.labels 0 == w.labels 1) && (w.state.work.setup.next_name == 2)) }
{}

/// A try leads on with a reply that takes from the same queue, to a world that is stored a level
/// later.
pub fn tries_of_moves()
    ensures leads { (parties : Parties ℕ ℕ) (table : List (Stored ℕ)) (x : Stored ℕ)
        (reply : Reply) (was : WasTried parties table x 5 reply)
        → world_after parties x.world 5 was.reply' ≡ Some was.world' }
    ensures queues { (parties : Parties ℕ ℕ) (table : List (Stored ℕ)) (x : Stored ℕ)
        (reply : Reply) (was : WasTried parties table x 5 reply)
        → TakeAlike reply was.reply' }
    ensures stored { (parties : Parties ℕ ℕ) (table : List (Stored ℕ)) (x : Stored ℕ)
        (reply : Reply) (was : WasTried parties table x 5 reply)
        → IsStored table (x.level + 1) was.world' }
    ensures there { (space : Space ℕ Move) (x : Stored ℕ) (tried : Try)
        (leads : LeadsBack space x tried)
        → IsThere space x leads.from }
    ensures led { (space : Space ℕ Move) (x : Stored ℕ) (tried : Try)
        (leads : LeadsBack space x tried)
        → IsLed space.parties leads.from tried leads.to }
    ensures back { (space : Space ℕ Move) (x : Stored ℕ) (tried : Try)
        (leads : LeadsBack space x tried)
        → HaveEqualKeys leads.to x.world }
{}

/// An ending that is noted, and rows that are added, leave those that were there.
pub fn endings_and_rows_that_are_noted()
    ensures each { (old new : List Ending) (ending : Ending) (is : IsEndingNoted old ending new)
        (e : Ending)
        → In e new → In e old ⊎ (AreLikeEndings e ending × (e.steps ≡ ending.steps)) }
    ensures kept { (old new : List Ending) (ending : Ending) (is : IsEndingNoted old ending new)
        (e : Ending)
        → In e old → HasAlike new e }
    ensures has { (old new : List Ending) (ending : Ending) (is : IsEndingNoted old ending new)
        → HasAlike new ending }
    ensures once { (old new : List Ending) (ending : Ending) (is : IsEndingNoted old ending new)
        → AreApart old → AreApart new }
    ensures rows_kept { (findings : List Finding) (old new : List Found)
        (adds : AddsRows 3 findings old new) (row : Found)
        → In row old → In row new }
    ensures rows_added { (findings : List Finding) (old new : List Found)
        (adds : AddsRows 3 findings old new) (row : Found)
        → In row new → In row old ⊎ (In row.finding findings × (row.steps ≡ 3)) }
    ensures rows_all { (findings : List Finding) (old new : List Found)
        (adds : AddsRows 3 findings old new) (finding : Finding)
        → In finding findings → HasFinding new finding }
    ensures rows_once { (findings : List Finding) (old new : List Found)
        (adds : AddsRows 3 findings old new)
        → AreDistinct old → AreDistinct new }
{}
