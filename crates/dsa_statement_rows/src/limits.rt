//! How many entries, acts and parties a script may have.

ghost use Rattle.std.specs.Prelude.{◌≡◌, ◌<◌, ◌≤◌, ◌^◌, [], List, length, map, true};
ghost use Rattle.std.specs.List.{list_all};
ghost use Rattle.dsa_parties.specs.Scripts.{are_parts, is_boundary, is_script};
ghost use Rattle.dsa_parties.specs.declared.script.{Act.{Act}, ClientScript.{ClientScript}, Part.{Part}};
ghost use Rattle.dsa_parties.specs.declared.script.ScriptEntry.{ScriptEntry};
ghost use Rattle.dsa_plans.specs.Plans.{are_few, Tables};

/// A script has no more than these.
pub fn limits_of_scripts()
    ensures entries { (entries : List ScriptEntry) (clients : List ClientScript) (acts : List Act)
        (administrators : List Part) → is_script entries clients acts administrators ≡ true
        → length entries < 2 ^ 32 }
    ensures acts { (entries : List ScriptEntry) (clients : List ClientScript) (acts : List Act)
        (administrators : List Part) → is_script entries clients acts administrators ≡ true
        → length acts < 2 ^ 32 }
    ensures clients { (entries : List ScriptEntry) (clients : List ClientScript) (acts : List Act)
        (administrators : List Part) → is_script entries clients acts administrators ≡ true
        → length clients ≤ 2 ^ 16 }
    ensures administrators { (entries : List ScriptEntry) (clients : List ClientScript)
        (acts : List Act) (administrators : List Part)
        → is_script entries clients acts administrators ≡ true
        → length administrators ≤ 2 ^ 16 }
{}

/// As many parties as a script may have make one.
pub fn largest_scripts()
    ensures clients { (clients : List ClientScript) → length clients ≡ 2 ^ 16
        → list_all (λ (client : ClientScript). is_boundary [] client.part.end) clients ≡ true
        → are_parts 0 0 (map (λ (client : ClientScript). client.part) clients) ≡ true
        → is_script [] clients [] [] ≡ true }
    ensures administrators { (administrators : List Part) → length administrators ≡ 2 ^ 16
        → are_parts 0 0 administrators ≡ true → is_script [] [] [] administrators ≡ true }
{}

/// The parties of a document have no more acts than a script may have.
pub fn limits_of_tables()
    ensures { (tables : Tables) → are_few tables ≡ true → length tables.acts < 2 ^ 32 }
{}
