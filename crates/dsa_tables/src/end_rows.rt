//! Worked lines of how runs can end, by computation.

ghost use Rattle.std.specs.Prelude.{◌≡◌, ◌++◌, [], ◌∷◌, Some, None, true, false, codes};
ghost use Rattle.std.specs.declared.alloc.Global.{Global};
ghost use Rattle.dsa_explore.specs.declared.found.Ask.TheVariants.{Act, Submission};
ghost use Rattle.dsa_explore.specs.WorkedEnds.{ending_with, ending_through};
ghost use Rattle.dsa_tables.specs.Ends.{ends_line};
ghost use Rattle.dsa_tables.specs.Worked.{stuck_twice, three_acts, two_labels};

/// Lines of no, of one and of several endings; none where they were not looked for. What has no
/// name goes by its number.
#[tactic(auto, unfolding(crate::specs::Worked::tables_on_literals))]
pub fn of_ends()
    ensures not_sought { ends_line two_labels three_acts None ≡ [] }
    ensures none { ends_line two_labels three_acts (Some []) ≡ codes "ends: none\n" }
    ensures through { (memory : Global)
        → ends_line two_labels three_acts (Some (ending_through memory 9 ∷ []))
        ≡ codes "ends: all through [9]\n" }
    ensures nameless { (memory : Global)
        → ends_line [] [] (Some (ending_with memory (Act 1) false 0 ∷ []))
        ≡ codes "ends: stuck at 1 [0]\n" }
    ensures several { (memory : Global)
        → ends_line two_labels three_acts (Some (ending_through memory 9
        ∷ ending_with memory (Act 1) true 5 ∷ stuck_twice memory
        ∷ ending_with memory (Submission 1) false 12 ∷ []))
        ≡ codes "ends: all through [9], stuck at poll with entries held [5], "
        ++ codes "stuck at x0 and poll [7], stuck at y0 [12]\n" }
{}
