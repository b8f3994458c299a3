//! Whether a formula holds.

ghost use Rattle.std.specs.Prelude.{◌≡◌, Bool, true, false, get_or, reverse, IfOk, OnOk};
ghost use Rattle.dsa_keys.specs.Key.{key};
ghost use Rattle.dsa_parties.specs.Standing.{stand_of};
ghost use Rattle.dsa_formulas.specs.Facts.{is_so};
ghost use Rattle.dsa_formulas.specs.Formulas.{holds_there, truths_after};
ghost use Rattle.dsa_formulas.specs.declared.formula.Fact.{Fact};
ghost use Rattle.dsa_formulas.specs.declared.formula.Term.TheVariants as term;

use crate::facts::is_so;
use crate::formula::Term;
use dsa_device::Device;
use dsa_parties::{Places, Script};
use dsa_store::EntryStore;
use std::alloc::{AllocError, Global};

// Turns the last truth round.
fn negate(truths: &mut Vec<bool>) -> Result<(), AllocError>
    ensures { OnOk result ((so : Fact → Bool)
        → reverse truths.new.items ≡ truths_after so (reverse truths.old.items) term.Not) }
{
    if let Some(truth) = truths.pop() {
        truths.push(!truth)?;
    }
    Ok(())
}

// Joins the last two truths.
fn join(truths: &mut Vec<bool>, is_both: bool) -> Result<(), AllocError>
    ensures both { is_both ≡ true → OnOk result ((so : Fact → Bool)
        → reverse truths.new.items ≡ truths_after so (reverse truths.old.items) term.Both) }
    ensures either { is_both ≡ false → OnOk result ((so : Fact → Bool)
        → reverse truths.new.items ≡ truths_after so (reverse truths.old.items) term.Either) }
{
    let Some(second) = truths.pop() else {
        return Ok(());
    };
    let Some(first) = truths.pop() else {
        truths.push(second)?;
        return Ok(());
    };
    let joined = if is_both {
        first && second
    } else {
        first || second
    };
    truths.push(joined)?;
    Ok(())
}

// The truths after one more term.
fn add_term<S: EntryStore>(
    truths: &mut Vec<bool>,
    script: &Script,
    places: &Places,
    labels: &[u32],
    device: &Device<S>,
    term: Term,
) -> Result<(), AllocError>
    ensures { OnOk result
        (reverse truths.new.items
        ≡ truths_after
        (is_so script.now (stand_of places.now)
        (key (λ name. get_or labels.now name 0) device.now.state)) (reverse truths.old.items)
        term) }
{
    match term {
        Term::Is(fact) => truths.push(is_so(script, places, labels, device, fact))?,
        Term::Known(truth) => truths.push(truth)?,
        Term::Not => negate(truths)?,
        Term::Both => join(truths, true)?,
        Term::Either => join(truths, false)?,
    }
    Ok(())
}

/// Whether the formula of these terms holds where the parties stand, on a device whose names have
/// these labels.
pub fn is_met<S: EntryStore>(
    alloc: Global,
    script: &Script,
    places: &Places,
    labels: &[u32],
    device: &Device<S>,
    terms: &[Term],
) -> Result<bool, AllocError>
    ensures { IfOk result
        (λ met. met
        ≡ holds_there
        (is_so script.now (stand_of places.now)
        (key (λ name. get_or labels.now name 0) device.now.state)) terms.now) }
{
    let mut truths = Vec::new(alloc);
    for term in terms {
        add_term(&mut truths, script, places, labels, device, *term)?;
    }
    Ok(truths.as_slice().last().copied().unwrap_or(false))
}
