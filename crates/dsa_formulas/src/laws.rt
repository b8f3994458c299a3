//! A law of formulas, on a function with nothing to do.

ghost use Rattle.std.specs.Prelude.{◌≡◌, List};
ghost use Rattle.dsa_keys.specs.Parties.{HaveEqualKeys, World};
ghost use Rattle.dsa_parties.specs.{declared.script.Script.{Script}, Standing.{Standing}};
ghost use Rattle.dsa_formulas.specs.declared.formula.Term.{Term};
ghost use Rattle.dsa_formulas.specs.Formulas.{holds_in_world};

/// In two worlds with equal keys a formula holds in both, or in neither.
pub fn formulas_depend_on_keys_alone()
    ensures { (script : Script) (terms : List Term) (w v : World Standing)
        → HaveEqualKeys w v
        → holds_in_world script terms w ≡ holds_in_world script terms v }
{}
