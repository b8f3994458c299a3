//! Laws of labels, each on a function with nothing to do.

ghost use Rattle.std.specs.Prelude.{◌≡◌, ℕ, Ok, Some, true, codes, length};
ghost use Rattle.std.specs.List.{list_all};
ghost use Rattle.serde_json.specs.{Data.{Data}, Find.{get}};
ghost use Rattle.dsa_named.specs.Names.{is_own_character};
ghost use Rattle.dsa_plans.specs.Plans.{Tables, parties_said};
ghost use Rattle.dsa_plans.specs.PartyLabels.{act_labels, entry_labels};

/// Where the parties of a document can be read, there are as many labels as entries of the script,
/// and as many labels of acts as acts.
pub fn each_entry_and_act_has_a_label()
    ensures entries { (count : ℕ) (document object : Data) (tables : Tables)
        → parties_said count document ≡ Ok tables
        → get (codes "parties") document ≡ Some object
        → length (entry_labels object) ≡ length tables.entries }
    ensures acts { (count : ℕ) (document object : Data) (tables : Tables)
        → parties_said count document ≡ Ok tables
        → get (codes "parties") document ≡ Some object
        → length (act_labels object) ≡ length tables.acts }
{}

/// Each label is made of characters that own names may have. So JSON has it as it is.
pub fn labels_are_plain()
    ensures entries { (object : Data)
        → list_all (list_all is_own_character) (entry_labels object) ≡ true }
    ensures acts { (object : Data)
        → list_all (list_all is_own_character) (act_labels object) ≡ true }
{}
