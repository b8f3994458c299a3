//! Faults of a document in words.

ghost use Rattle.std.specs.Prelude.{◌≡◌, [], ◌∷◌, codes, map};
ghost use Rattle.dsa_scenario.specs.declared.faults.ScenarioFault.TheVariants.{Read, TooLong, NotJson, BadDocument, BadStep, BadCaps, BadCapacity, NoParties, BadParties, BadParty, TooManyParties, BadQuestion, BadSetup, Differs, Incomplete, Broken, NoSuchRow, Write, OutOfMemory};
ghost use Rattle.dsa_scenario.specs.Faults.{fault_line, fault_text};

/// The line of each fault of a document.
#[tactic(auto, unfolding(dsa_scenario::specs::Worked::digits_on_literals))]
pub fn faults_in_words()
    ensures line { fault_line BadCapacity ≡ codes "dsa_run: bad capacity\n" }
    ensures texts { map fault_text
        (Read
        ∷ TooLong
        ∷ NotJson
        ∷ BadDocument
        ∷ BadStep 3
        ∷ BadCaps
        ∷ BadCapacity
        ∷ NoParties
        ∷ BadParties
        ∷ BadParty 12
        ∷ TooManyParties
        ∷ BadQuestion 7
        ∷ BadSetup
        ∷ Differs 4
        ∷ Incomplete
        ∷ Broken 10
        ∷ NoSuchRow
        ∷ Write
        ∷ OutOfMemory
        ∷ [])
        ≡ codes "read failed"
        ∷ codes "document too long"
        ∷ codes "not JSON"
        ∷ codes "bad document"
        ∷ codes "bad step 3"
        ∷ codes "bad caps"
        ∷ codes "bad capacity"
        ∷ codes "no parties"
        ∷ codes "bad parties"
        ∷ codes "bad party 12"
        ∷ codes "too many parties"
        ∷ codes "bad question 7"
        ∷ codes "bad set-up"
        ∷ codes "step 4 differs"
        ∷ codes "search incomplete"
        ∷ codes "question 10 is broken"
        ∷ codes "no such row"
        ∷ codes "write failed"
        ∷ codes "out of memory"
        ∷ [] }
{}
