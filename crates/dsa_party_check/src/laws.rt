//! Laws of what is told of parties and questions, each on a function with nothing to do.

ghost use Rattle.std.specs.Prelude.{◌≡◌, ◌+◌, ℕ, [], codes, None, Ok, Err, Some, true};
ghost use Rattle.serde_json.specs.{Data.{Data}, Find.{get}};
ghost use Rattle.dsa_regs.specs.declared.Caps.{Caps};
ghost use Rattle.dsa_scenario.specs.declared.faults.ScenarioFault.{ScenarioFault};
ghost use Rattle.dsa_scenario.specs.declared.faults.ScenarioFault.TheVariants.{BadQuestion};
ghost use Rattle.dsa_parties.specs.declared.script.Script.{Script};
ghost use Rattle.dsa_plans.specs.Plans.{parties_said, tables_of, Tables};
ghost use Rattle.dsa_plans.specs.PartyLabels.{act_labels, entry_labels};
ghost use Rattle.dsa_questions.specs.declared.question.Kind.{Kind};
ghost use Rattle.dsa_questions.specs.{Judging.{is_question}, Stating.{nameable, Nameable}};
ghost use Rattle.dsa_questions.specs.Reading.{Inquiry, question_onto, questions_said};
ghost use Rattle.dsa_check.specs.Judgement.{caps_at};
ghost use Rattle.dsa_party_check.specs.QuestionFlaws.{all_flaws_of, question_flaws};
ghost use Rattle.dsa_party_check.specs.{Flaws.{flaws_of_document}, PartyCheck.{first_flaw}};

/// If the parties of a document cannot be read, the first that is told is the fault that `explore`
/// tells of them; if they can, nothing is told. Without parties nothing is told either.
pub fn the_first_is_what_a_search_tells()
    ensures parties { (document d : Data) (caps : Caps) (fault : ScenarioFault)
        → get (codes "parties") document ≡ Some d
        → caps_at document ≡ Some caps
        → parties_said caps.engines document ≡ Err fault
        → first_flaw (flaws_of_document document) ≡ Some fault }
    ensures none { (document d : Data) (caps : Caps) (tables : Tables)
        → get (codes "parties") document ≡ Some d
        → caps_at document ≡ Some caps
        → parties_said caps.engines document ≡ Ok tables
        → flaws_of_document document ≡ [] }
    ensures no_parties { (document : Data) → get (codes "parties") document ≡ None
        → flaws_of_document document ≡ [] }
{}

/// So it is with all that is told of parties and of questions: the first is the fault that
/// `explore` tells of the parties, and if they can be read, of the questions. Nothing is told if
/// both can be read.
pub fn all_follows_a_search()
    ensures parties { (document d : Data) (caps : Caps) (fault : ScenarioFault)
        → get (codes "parties") document ≡ Some d
        → caps_at document ≡ Some caps
        → parties_said caps.engines document ≡ Err fault
        → first_flaw (all_flaws_of document) ≡ Some fault }
    ensures questions { (document d : Data) (caps : Caps) (script : Script) (fault : ScenarioFault)
        → get (codes "parties") document ≡ Some d
        → caps_at document ≡ Some caps
        → parties_said caps.engines document ≡ Ok (tables_of script)
        → questions_said (nameable caps script (entry_labels d) (act_labels d)) document ≡ Err fault
        → first_flaw (all_flaws_of document) ≡ Some fault }
    ensures none { (document d : Data) (caps : Caps) (script : Script) (inquiry : Inquiry)
        → get (codes "parties") document ≡ Some d
        → caps_at document ≡ Some caps
        → parties_said caps.engines document ≡ Ok (tables_of script)
        → questions_said (nameable caps script (entry_labels d) (act_labels d)) document
        ≡ Ok inquiry
        → all_flaws_of document ≡ [] }
    ensures no_parties { (document : Data) → get (codes "parties") document ≡ None
        → all_flaws_of document ≡ [] }
{}

/// A question is told exactly if `explore` cannot read it, whatever comes before it. Where the
/// parties cannot be read, none is told that could be read with any parties.
pub fn each_bad_question_is_told()
    ensures good { (kind : Kind) (names : Nameable) (first place : ℕ) (done more : Inquiry)
        (d : Data)
        → question_onto kind names done d ≡ Some more
        → question_flaws (Some names) kind first place d ≡ [] }
    ensures bad { (kind : Kind) (names : Nameable) (first place : ℕ) (done : Inquiry) (d : Data)
        → question_onto kind names done d ≡ None
        → first_flaw (question_flaws (Some names) kind first place d)
        ≡ Some (BadQuestion (first + place)) }
    ensures unread { (kind : Kind) (names : Nameable) (first place : ℕ) (d : Data)
        → is_question kind names d ≡ true
        → question_flaws None kind first place d ≡ [] }
{}
