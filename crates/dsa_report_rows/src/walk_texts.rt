//! Texts of random walks, and why there are none.

ghost use Rattle.std.specs.Prelude.{◌≡◌, ℕ, [], List, false, Ok, Some};
ghost use Rattle.dsa_scenario.specs.declared.faults.ScenarioFault.TheVariants.{BadParties, BadParty, BadQuestion};
ghost use Rattle.dsa_scenario.specs.declared.faults.ScenarioFault.TheVariants.{BadSetup, Broken, Incomplete};
ghost use Rattle.dsa_scenario.specs.declared.faults.ScenarioFault.TheVariants.{NoParties, TooManyParties};
ghost use Rattle.dsa_explore.specs.Sampling.{IsSampled};
ghost use Rattle.dsa_explore.specs.declared.sampling.Walks.{Walks};
ghost use Rattle.dsa_questions.specs.Reading.{questions_said};
ghost use Rattle.dsa_questions.specs.Samples.{answers_of_walks};
ghost use Rattle.dsa_questions.specs.{Stating.{nameable}, Verdicts.{first_broken}};
ghost use Rattle.dsa_exploration.specs.Exploration.{fault_of_search, HasBadParties, HasBadQuestion, HasBadSetup};
ghost use Rattle.dsa_exploration.specs.{Plan.{IsPlan}, Sampling.{walks_text_in, IsSamplingOf, IsTextOfWalks}};
ghost use Rattle.dsa_exploration.specs.declared.exploration.Form.{Form};

/// The text of random walks is that of a plan, and of all walks that were asked for.
pub fn texts_of_random_walks()
    ensures plan { (form : Form) (walks : Walks) (bytes text : List ℕ)
        (is : IsTextOfWalks form walks bytes (Some Incomplete) text)
        → IsPlan bytes is.caps is.script is.setup is.labels is.acts is.questions.watches }
    ensures asked { (form : Form) (walks : Walks) (bytes text : List ℕ)
        (is : IsTextOfWalks form walks bytes (Some Incomplete) text)
        → questions_said (nameable is.caps is.script is.labels is.acts) is.plan.document ≡ Ok
        is.questions }
    ensures made { (form : Form) (walks : Walks) (bytes text : List ℕ)
        (is : IsTextOfWalks form walks bytes (Some Incomplete) text)
        → IsSampled is.caps is.script is.setup walks is.sampled }
    ensures told { (form : Form) (walks : Walks) (bytes text : List ℕ)
        (is : IsTextOfWalks form walks bytes (Some Incomplete) text)
        → Some Incomplete ≡ fault_of_search (first_broken (answers_of_walks is.sampled
        is.questions.asked)) false }
    ensures table { (form : Form) (walks : Walks) (bytes text : List ℕ)
        (is : IsTextOfWalks form walks bytes (Some Incomplete) text)
        → text ≡ walks_text_in form is.labels is.acts (answers_of_walks is.sampled
        is.questions.asked) is.sampled }
{}

/// After walks the search is not complete, or a question is broken.
pub fn faults_of_random_walks()
    ensures incomplete { (form : Form) (walks : Walks) (bytes text : List ℕ)
        → IsTextOfWalks form walks bytes (Some Incomplete) text
        → IsSamplingOf form walks bytes (Some Incomplete) text }
    ensures broken { (form : Form) (walks : Walks) (bytes text : List ℕ)
        → IsTextOfWalks form walks bytes (Some (Broken 2)) text
        → IsSamplingOf form walks bytes (Some (Broken 2)) text }
{}

/// What stops a search stops random walks too.
pub fn walks_that_cannot_be_made()
    ensures setup { (form : Form) (walks : Walks) (bytes : List ℕ) → HasBadSetup bytes
        → IsSamplingOf form walks bytes (Some BadSetup) [] }
    ensures no_parties { (form : Form) (walks : Walks) (bytes : List ℕ)
        → HasBadParties bytes NoParties → IsSamplingOf form walks bytes (Some NoParties) [] }
    ensures parties { (form : Form) (walks : Walks) (bytes : List ℕ)
        → HasBadParties bytes BadParties → IsSamplingOf form walks bytes (Some BadParties) [] }
    ensures party { (form : Form) (walks : Walks) (bytes : List ℕ)
        → HasBadParties bytes (BadParty 2) → IsSamplingOf form walks bytes (Some (BadParty 2)) [] }
    ensures many { (form : Form) (walks : Walks) (bytes : List ℕ)
        → HasBadParties bytes TooManyParties
        → IsSamplingOf form walks bytes (Some TooManyParties) [] }
    ensures question { (form : Form) (walks : Walks) (bytes : List ℕ)
        → HasBadQuestion bytes (BadQuestion 2)
        → IsSamplingOf form walks bytes (Some (BadQuestion 2)) [] }
{}

/// Where no walk is made there is no text.
pub fn no_text_without_walks()
    ensures setup { (form : Form) (walks : Walks) (bytes text : List ℕ)
        → IsSamplingOf form walks bytes (Some BadSetup) text → (text ≡ []) × HasBadSetup bytes }
    ensures no_parties { (form : Form) (walks : Walks) (bytes text : List ℕ)
        → IsSamplingOf form walks bytes (Some NoParties) text
        → (text ≡ []) × HasBadParties bytes NoParties }
    ensures parties { (form : Form) (walks : Walks) (bytes text : List ℕ)
        → IsSamplingOf form walks bytes (Some BadParties) text
        → (text ≡ []) × HasBadParties bytes BadParties }
    ensures party { (form : Form) (walks : Walks) (bytes text : List ℕ)
        → IsSamplingOf form walks bytes (Some (BadParty 2)) text
        → (text ≡ []) × HasBadParties bytes (BadParty 2) }
    ensures many { (form : Form) (walks : Walks) (bytes text : List ℕ)
        → IsSamplingOf form walks bytes (Some TooManyParties) text
        → (text ≡ []) × HasBadParties bytes TooManyParties }
    ensures question { (form : Form) (walks : Walks) (bytes text : List ℕ)
        → IsSamplingOf form walks bytes (Some (BadQuestion 2)) text
        → (text ≡ []) × HasBadQuestion bytes (BadQuestion 2) }
{}
