//! The document that a dialogue begins with, whose steps are run and answered.

ghost use Rattle.std.specs.Prelude.{◌≡◌, ◌⊎◌, ◌++◌, [], ℕ, List, map, IfOk, IfErr, OnOk};
ghost use Rattle.std.specs.Prelude.{length, string_bytes};
ghost use Rattle.dsa_scenario.specs.declared.faults.ScenarioFault.{ScenarioFault};
ghost use Rattle.dsa_regs.specs.declared.Caps.{Caps};
ghost use Rattle.dsa_scenario.specs.declared.{actions.Action.{Action}, run.Record.{Record}};
ghost use Rattle.serde_json.specs.View.{view};
ghost use Rattle.dsa_conform.specs.{Seen.{Seen}, Run.{AreAllRead, AreRead}};
ghost use Rattle.dsa_serve.specs.Names.{first_names, names_in, own_names_of, names_over};
ghost use Rattle.dsa_serve.specs.Requests.{step_request};
ghost use Rattle.dsa_scenario.specs.Lines.{line_of_text};
ghost use Rattle.dsa_serve.specs.Answers.{ready_text, HasCome};
ghost use Rattle.dsa_serve.specs.Dialogue.{IsFaultOfFirst, IsFaultOfStrict, IsTakenAs, Serves};

use crate::dialogue::Dialogue;
use crate::front::Front;
use crate::session::Session;
use dsa_cells::LinkedStore;
use dsa_conform::{first_unread, parse_step};
use dsa_expand::{GivenName, strict_form};
use dsa_scenario::{Run, ScenarioFault, open_run, parse_head, parse_json};
use serde_json::Value;
use std::alloc::{AllocError, Global};
use std::fmt::Write;

// Makes the steps of a document, each by an answer that shows what was seen if one may.
fn make_steps(
    alloc: Global,
    session: &mut Session<LinkedStore>,
    text: &mut String,
    steps: &[Value],
) -> Result<(), AllocError>
    requires { AreAllRead (map view steps.now) }
    ensures { OnOk result
        ((observed : List (Action × Seen))
        × AreRead (map view steps.now) observed
        × ((caps : Caps) (capacity : ℕ)
        → HasCome caps capacity [] [] session.old (string_bytes text.old)
        → (records : List Record)
        × HasCome caps capacity (map step_request observed) records session.new
        (string_bytes text.new)
        × (length records ≡ length observed)
        × (own_names_of session.new
        ≡ names_over (own_names_of session.old) (map view steps.now) records))) }
{
    for step in steps {
        let Some((action, seen)) = parse_step(step) else {
            unreachable!();
        };
        session.step(alloc, text, action, &seen, Some(step))?;
    }
    Ok(())
}

// Adds that a document was taken, and how many steps it had.
fn add_ready(text: &mut String, count: usize) -> Result<(), AllocError>
    ensures { OnOk result
        (string_bytes text.new ≡ string_bytes text.old ++ line_of_text (ready_text count)) }
{
    writeln!(text, "ready {count}")
}

// The own names that are known before any step.
fn no_names(alloc: Global, is_friendly: bool) -> Option<Vec<GivenName>>
    ensures { names_in result ≡ first_names is_friendly }
{
    if is_friendly {
        return Some(Vec::new(alloc));
    }
    None
}

// A session of the strict document in these bytes, with the answers to its steps.
fn open_session(
    alloc: Global,
    text: &mut String,
    bytes: &[u8],
    is_friendly: bool,
) -> Result<Session<LinkedStore>, ScenarioFault>
    ensures ok { IfOk result
        (λ session. string_bytes text.old ≡ []
        → (first : List ℕ)
        → IsTakenAs is_friendly first bytes.now
        → Serves is_friendly first [] (string_bytes text.new) session []) }
    ensures err { IfErr result
        (λ e. (e ≡ ScenarioFault.OutOfMemory) ⊎ IsFaultOfStrict bytes.now e) }
{
    let value = parse_json(alloc, bytes)?;
    let Some(head) = parse_head(&value) else {
        return Err(ScenarioFault::BadDocument);
    };
    if let Some(i) = first_unread(head.steps) {
        return Err(ScenarioFault::BadStep(i as u64));
    }
    let Run { device, tickets } = open_run(alloc, &head)?;
    let mut session = Session {
        device,
        tickets,
        number: 0,
        told: 0,
        names: no_names(alloc, is_friendly),
    };
    make_steps(alloc, &mut session, text, head.steps)?;
    add_ready(text, head.steps.len())?;
    Ok(session)
}

// A session of the document in these bytes, which in a friendly dialogue is in the friendly form.
fn open_first(
    alloc: Global,
    text: &mut String,
    first: &[u8],
    is_friendly: bool,
) -> Result<Session<LinkedStore>, ScenarioFault>
    ensures ok { IfOk result
        (λ session. string_bytes text.old ≡ []
        → Serves is_friendly first.now [] (string_bytes text.new) session []) }
    ensures err { IfErr result
        (λ e. (e ≡ ScenarioFault.OutOfMemory) ⊎ IsFaultOfFirst is_friendly first.now e) }
{
    if !is_friendly {
        return open_session(alloc, text, first, false);
    }
    let strict = strict_form(alloc, first)?;
    open_session(alloc, text, strict.as_bytes(), true)
}

/// A dialogue of the document at its head, with the answers to its steps and to the whole lines
/// behind it, all of which in a friendly dialogue may be in the friendly form.
pub fn begin(
    alloc: Global,
    text: &mut String,
    front: &Front,
    is_friendly: bool,
) -> Result<Dialogue<LinkedStore>, ScenarioFault>
    ensures ok { IfOk result
        (λ dialogue. string_bytes text.old ≡ []
        → Serves is_friendly front.now.first.items front.now.behind.items
        (string_bytes text.new) dialogue.session dialogue.kept.items) }
    ensures err { IfErr result
        (λ e. (e ≡ ScenarioFault.OutOfMemory)
        ⊎ IsFaultOfFirst is_friendly front.now.first.items e) }
{
    let session = open_first(alloc, text, &front.first, is_friendly)?;
    let mut dialogue = Dialogue {
        session,
        kept: Vec::new(alloc),
    };
    dialogue.feed(alloc, text, &front.behind)?;
    Ok(dialogue)
}
