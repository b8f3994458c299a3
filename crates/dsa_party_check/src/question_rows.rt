//! Worked rows: what is told of questions at chosen values, by computation.

ghost use Rattle.std.specs.Prelude.{◌≡◌, [], ◌∷◌, ◌++◌, map, None, Some, true, false, codes};
ghost use Rattle.serde_json.specs.Data.{null, string};
ghost use Rattle.dsa_scenario.specs.declared.faults.ScenarioFault.TheVariants as fault;
ghost use Rattle.dsa_scenario.specs.Worked.{object_of, poll_step, whole};
ghost use Rattle.dsa_plans.specs.Worked.{fill_step, listing, party};
ghost use Rattle.dsa_questions.specs.declared.question.Kind.TheVariants as kind;
ghost use Rattle.dsa_questions.specs.Worked.{all_of, any_of, command_is, entry_is, negated};
ghost use Rattle.dsa_questions.specs.Worked.{question_about, question_named, worked_names};
ghost use Rattle.dsa_questions.specs.Worked.{worked_pair};
ghost use Rattle.dsa_check.specs.declared.finding.Aim.TheVariants as aim;
ghost use Rattle.dsa_party_check.specs.declared.complaint.Inside.TheVariants as inside;
ghost use Rattle.dsa_party_check.specs.declared.complaint.Subject.TheVariants as subject;
ghost use Rattle.dsa_party_check.specs.declared.expectations.Expected.TheVariants as expected;
ghost use Rattle.dsa_party_check.specs.Expectations.{condition_complaint, expected_reason};
ghost use Rattle.dsa_party_check.specs.Expectations.{is_as_expected, of_condition, range_end};
ghost use Rattle.dsa_party_check.specs.PartyLines.{complaint_line};
ghost use Rattle.dsa_party_check.specs.PartyObjects.{complaint_object};
ghost use Rattle.dsa_party_check.specs.QuestionFlaws.{all_flaws_of, flaws_of_questions, is_readable};
ghost use Rattle.dsa_party_check.specs.QuestionFlaws.{question_complaints};
ghost use Rattle.dsa_party_check.specs.WorkedParties.{asked_with, beside, faults_found};
ghost use Rattle.dsa_party_check.specs.WorkedParties.{reasons_told, third_place};
ghost use Rattle.dsa_party_check.specs.WorkedParties.{names_of_twins};

/// What is said of keys of conditions. Of the twins' names one is of two entries, and there is no
/// administrator.
#[tactic(auto, unfolding(dsa_scenario::specs::Worked::digits_on_literals))]
pub fn reasons_of_conditions()
    ensures nobody { expected_reason worked_names (codes "entry") expected.Entry
        (string (codes "z0"))
        ≡ codes "\"entry\" is \"z0\", the label of an entry is wanted" }
    ensures entry { expected_reason worked_names (codes "command") expected.Act
        (string (codes "x0"))
        ≡ codes "\"command\" is \"x0\", the label of a step of an administrator is wanted" }
    ensures two { expected_reason names_of_twins (codes "entry") expected.Entry
        (string (codes "twin"))
        ≡ codes "\"entry\" is \"twin\", a label that one entry alone has is wanted" }
    ensures two_acts { expected_reason names_of_twins (codes "removes") expected.Act
        (string (codes "drain"))
        ≡ codes "\"removes\" is \"drain\", "
        ++ codes "a label that one step of an administrator alone has is wanted" }
    ensures label { expected_reason worked_names (codes "entry") expected.Entry null
        ≡ codes "\"entry\" is null, the label of an entry is wanted" }
    ensures became { expected_reason worked_names (codes "is") expected.Became
        (string (codes "lost"))
        ≡ codes "\"is\" is \"lost\", \"accepted\", \"retry\", \"dropped\", \"completed\", "
        ++ codes "\"successful\", \"failed\", \"aborted\", \"abandoned\", \"held\" or \"waiting\" "
        ++ codes "is wanted" }
    ensures replied { expected_reason worked_names (codes "is") expected.Replied
        (string (codes "held"))
        ≡ codes "\"is\" is \"held\", \"ended\", \"active\", \"refused\", \"finished\", "
        ++ codes "\"nothing\", \"written\" or \"cleared\" is wanted" }
    ensures phase { expected_reason worked_names (codes "device") expected.Phase (whole 1)
        ≡ codes "\"device\" is 1, \"off\", \"on\" or \"stopping\" is wanted" }
    ensures queue { expected_reason worked_names (codes "queue") expected.Queue (whole 2)
        ≡ codes "\"queue\" is 2, at most 1 is wanted" }
    ensures no_party { expected_reason names_of_twins (codes "admin") expected.Administrator
        (whole 0)
        ≡ codes "\"admin\" is 0, another condition is wanted" }
    ensures limits { map (range_end worked_names)
        (expected.Queue ∷ expected.Client ∷ expected.Administrator ∷ expected.Occupancy ∷ [])
        ≡ 2 ∷ 2 ∷ 1 ∷ 65536 ∷ [] }
    ensures words { map (λ word. is_as_expected worked_names expected.Became (string word))
        (codes "aborted" ∷ codes "waiting" ∷ codes "ended" ∷ [])
        ≡ true ∷ true ∷ false ∷ [] }
{}

/// What is told of conditions: of each key, and of each condition in another.
#[tactic(auto, unfolding(dsa_scenario::specs::Worked::digits_on_literals))]
pub fn complaints_of_conditions()
    ensures right { of_condition 3 worked_names
        (all_of
        (entry_is (codes "x0") (codes "held") ∷ command_is (codes "poll") (codes "active") ∷ []))
        ≡ [] }
    ensures keys { reasons_told (of_condition 1 worked_names (entry_is (codes "z0") (codes "gone")))
        ≡ codes "\"entry\" is \"z0\", the label of an entry is wanted"
        ∷ (codes "\"is\" is \"gone\", \"accepted\", \"retry\", \"dropped\", \"completed\", "
        ++ codes "\"successful\", \"failed\", \"aborted\", \"abandoned\", \"held\" or \"waiting\" "
        ++ codes "is wanted")
        ∷ [] }
    ensures nested { reasons_told (of_condition 3 worked_names
        (any_of
        (entry_is (codes "z0") (codes "held")
        ∷ negated (worked_pair (codes "command") (codes "drain") (codes "waits-for") (codes "z1"))
        ∷ [])))
        ≡ codes "\"entry\" is \"z0\", the label of an entry is wanted"
        ∷ codes "\"waits-for\" is \"z1\", the label of an entry is wanted"
        ∷ [] }
    ensures deep { of_condition 1 worked_names (negated (entry_is (codes "z0") (codes "held")))
        ≡ [] }
{}

/// What is told of questions. Where it is not known what may be named, conditions are not judged.
#[tactic(auto, unfolding(dsa_scenario::specs::Worked::digits_on_literals, dsa_questions::specs::Worked::questions_on_literals, dsa_check::specs::Worked::near_on_literals))]
pub fn complaints_of_questions()
    ensures right { question_complaints (Some worked_names) kind.Never
        (question_about (entry_is (codes "y0") (codes "aborted")))
        ≡ [] }
    ensures label { reasons_told (question_complaints (Some worked_names) kind.Never
        (question_about (entry_is (codes "z0") (codes "aborted"))))
        ≡ codes "\"entry\" is \"z0\", the label of an entry is wanted" ∷ [] }
    ensures unknown { question_complaints None kind.Never
        (question_about (entry_is (codes "z0") (codes "aborted")))
        ≡ [] }
    ensures no_that { reasons_told (question_complaints None kind.Always
        (object_of ((codes "name", string (codes "m")) ∷ [])))
        ≡ codes "\"that\" is missing" ∷ [] }
    ensures name { reasons_told (question_complaints (Some worked_names) kind.Never
        (object_of
        ((codes "name", whole 1) ∷ (codes "that", entry_is (codes "y0") (codes "aborted")) ∷ [])))
        ≡ (codes "\"name\" is 1, a text of 1 to 80 printable ASCII characters other than "
        ++ codes "\" and \\ is wanted")
        ∷ [] }
    ensures other_key { reasons_told (question_complaints (Some worked_names) kind.Never
        (object_of
        ((codes "nam", null) ∷ (codes "that", entry_is (codes "y0") (codes "aborted")) ∷ [])))
        ≡ codes "\"nam\" is no key here, but \"name\" is" ∷ [] }
    ensures no_object { reasons_told (question_complaints (Some worked_names) kind.Sometimes null)
        ≡ codes "null stands here, an object is wanted" ∷ [] }
    ensures no_condition { question_complaints (Some worked_names) kind.Always
        (question_about
        (worked_pair (codes "command") (codes "drain") (codes "waits-for") (codes "x0")))
        ≡ condition_complaint (codes "\"that\" is no condition") ∷ [] }
    ensures readable { map (λ names. is_readable names kind.Never
        (question_named (codes "m") (entry_is (codes "z0") (codes "aborted"))))
        (None ∷ Some worked_names ∷ [])
        ≡ true ∷ false ∷ [] }
{}

/// The faults of questions of documents, in their order. The one client has the entry `a0`, and the
/// one administrator the step `A0`.
#[tactic(auto, unfolding(dsa_scenario::specs::Worked::digits_on_literals, dsa_questions::specs::Worked::questions_on_literals, hex::proofs::OnLiterals::hex_on_literals, crate::specs::PartyFlaws::act_complaints))]
pub fn flaws_of_asking_documents()
    ensures right { all_flaws_of
        (asked_with (party (fill_step [] ∷ []) ∷ []) (party (object_of poll_step ∷ []) ∷ [])
        ((codes "never", listing (question_about (entry_is (codes "a0") (codes "aborted")) ∷ []))
        ∷ (codes "always", listing (question_about (command_is (codes "A0") (codes "active")) ∷ []))
        ∷ []))
        ≡ [] }
    ensures each { faults_found (all_flaws_of
        (asked_with (party (fill_step [] ∷ []) ∷ []) []
        ((
          codes "never",
          listing
              (question_about (entry_is (codes "a0") (codes "aborted")) ∷ null ∷ []),
        )
        ∷ (codes "sometimes", null)
        ∷ (
          codes "always",
          listing
              (question_about (entry_is (codes "a1") (codes "held"))
              ∷ question_about (entry_is (codes "a0") (codes "held"))
              ∷ null ∷ []),
        )
        ∷ [])))
        ≡ (fault.BadQuestion 1, subject.Question kind.Never 1)
        ∷ (fault.BadQuestion 2, subject.Document)
        ∷ (fault.BadQuestion 3, subject.Question kind.Always 0)
        ∷ (fault.BadQuestion 5, subject.Question kind.Always 2)
        ∷ [] }
    ensures parties { faults_found (all_flaws_of
        (asked_with (null ∷ []) []
        ((
          codes "sometimes",
          listing
              (question_about (entry_is (codes "a0") (codes "aborted")) ∷ null ∷ []),
        )
        ∷ [])))
        ≡ (fault.BadParty 0, subject.Client 0)
        ∷ (fault.BadQuestion 1, subject.Question kind.Sometimes 1)
        ∷ [] }
    ensures no_parties { flaws_of_questions (beside ((codes "never", null) ∷ [])) ≡ [] }
{}

/// The lines of what is told, and the objects.
#[tactic(auto, unfolding(dsa_scenario::specs::Worked::digits_on_literals, json::specs::Print::print_from, json::specs::Print::escape_byte))]
pub fn texts_of_questions()
    ensures line { complaint_line false (fault.BadQuestion 4) (subject.Question kind.Sometimes 1)
        (condition_complaint (codes "odd")) (Some third_place)
        ≡ codes "line 3, column 16, question 4 (sometimes 1): odd\n" }
    ensures list { complaint_line false (fault.BadQuestion 4) subject.Document
        (condition_complaint (codes "odd")) None
        ≡ codes "question 4: odd\n" }
    ensures object { complaint_object false (fault.BadQuestion 4)
        (condition_complaint (codes "odd")) None
        ≡ codes "{\"part\":\"question\",\"question\":4,\"key\":\"that\","
        ++ codes "\"level\":\"fault\",\"reason\":\"odd\"}\n" }
    ensures aims { (condition_complaint (codes "odd")).aim ≡ aim.Value }
    ensures parts { (condition_complaint (codes "odd")).inside ≡ inside.All }
{}
