//! A session: a device, and an answer to each line.

ghost use Rattle.std.specs.Prelude.{◌≡◌, ◌≤◌, ◌^◌, ◌++◌, ◌+◌, [], ◌∷◌, IfOk, OnOk, OnErr};
ghost use Rattle.std.specs.Prelude.{option_and_then, option_map, string_bytes};
ghost use Rattle.dsa_scenario.specs.Lines.{line_of_text};
ghost use Rattle.serde_json.specs.{Data.{depth}, Read.{read}, View.{view}};
ghost use Rattle.dsa_conform.specs.Seen.{seen_as};
ghost use Rattle.dsa_expand.specs.Single.{sense_as};
ghost use Rattle.dsa_serve.specs.Names.{names_given_by, names_in, own_names_of};
ghost use Rattle.dsa_serve.specs.Requests.{Step, Explain, Fates, BeginAnew, Asks, IsAskedAs};
ghost use Rattle.dsa_serve.specs.Requests.{IsAskedIn, IsStrictAsked, is_explanation, sense_in};
ghost use Rattle.dsa_serve.specs.Requests.{step_within};
ghost use Rattle.dsa_serve.specs.Answers.{difference, refusal_line, shown_text, new_fates_text};
ghost use Rattle.dsa_serve.specs.Answers.{anew_text, told_anew};
ghost use Rattle.dsa_serve.specs.Answers.{AnswersOne, MakesNoStep, MakesStep};

use crate::requests::{
    Line, MAX_LINE, is_explanation, no_json, no_step, no_strict_form, no_strict_step, parse_line,
    step_within,
};
use dsa_book::{FateRow, PastFates, Ticket};
use dsa_conform::{Closest, Observed, follow_closest, parse_step};
use dsa_device::Device;
use dsa_expand::{GivenName, Meaning, meaning_of, note_name};
use dsa_explain_lines::{add_line, add_part};
use dsa_scenario::{
    Action, Record, ScenarioFault, add_record, add_rows, event_for, note_ticket, parse_json,
};
use dsa_store::EntryStore;
use dsa_trace::add_state;
use serde_json::Value;
use std::alloc::{AllocError, Global};
use std::fmt::Write;

/// A device, the tickets that it gave at the places of their names, how many steps were made, how
/// many of the device's fates were told, and in a friendly dialogue the own names that were given.
#[derive(Drop)]
pub struct Session<S: EntryStore> {
    pub(crate) device: Device<S>,
    pub(crate) tickets: Vec<Ticket>,
    pub(crate) number: usize,
    pub(crate) told: usize,
    pub(crate) names: Option<Vec<GivenName>>,
}

// The number of steps with one more, or an error where that does not fit.
fn next(number: usize) -> Result<usize, AllocError>
    ensures more { IfOk result (λ more. more ≡ number + 1) }
    ensures full { OnErr result (2 ^ 64 ≤ number + 1) }
{
    number.checked_add(1).ok_or(AllocError)
}

// Adds why a line asks nothing.
fn add_fault(text: &mut String, why: &str) -> Result<(), AllocError>
    ensures { OnOk result
        (string_bytes text.new ≡ string_bytes text.old ++ line_of_text (refusal_line why.now)) }
{
    writeln!(text, "fault {why}")
}

// Adds the word before an answer that does not show what was seen of it.
fn add_difference(text: &mut String, is_shown: bool) -> Result<(), AllocError>
    ensures { OnOk result
        (string_bytes text.new ≡ string_bytes text.old ++ difference is_shown) }
{
    if is_shown {
        return Ok(());
    }
    text.push_str("differs ")
}

// Adds the object of a device as it stands.
fn add_shown<S: EntryStore>(text: &mut String, device: &Device<S>) -> Result<(), AllocError>
    ensures { OnOk result
        (string_bytes text.new ≡ string_bytes text.old ++ shown_text device.now) }
{
    add_state(text, device)?;
    text.push_str("\n")
}

// Adds how many fates these are, and each in its line.
fn add_fates(text: &mut String, fates: &[FateRow]) -> Result<(), AllocError>
    ensures { OnOk result
        (string_bytes text.new ≡ string_bytes text.old ++ new_fates_text fates.now) }
{
    let count = fates.len();
    writeln!(text, "fates {count}")?;
    add_rows(text, fates)
}

// Adds that the history began anew.
fn add_anew(text: &mut String) -> Result<(), AllocError>
    ensures { OnOk result
        (string_bytes text.new ≡ string_bytes text.old ++ line_of_text anew_text) }
{
    text.push_str("begun anew\n")
}

// How many of the fates that are left were told, where so many were and the history begins anew.
fn told_anew(past: PastFates, told: usize) -> usize
    ensures { result ≡ told_anew past told }
{
    match past {
        PastFates::Kept => told,
        PastFates::Forgotten => 0,
    }
}

// Notes the name that a step was given under its own, in a friendly dialogue.
fn note_own(
    alloc: Global,
    names: &mut Option<Vec<GivenName>>,
    own: Option<&Value>,
    entry: &Record,
) -> Result<(), AllocError>
    ensures { OnOk result
        (names_in names.new
        ≡ names_given_by (names_in names.old) (option_map (λ step. view step.now) own.entry)
        (entry.now ∷ [])) }
{
    let Some(step) = own else {
        return Ok(());
    };
    match names {
        Some(given) => note_name(alloc, given, step, entry),
        None => Ok(()),
    }
}

impl<S: EntryStore> Session<S> {
    /// Makes one step more, by an answer that shows what was seen if one may, and adds what it is
    /// answered. The name that it is given is noted under that of this step object.
    #[inline(always)]
    pub(crate) fn step(
        &mut self,
        alloc: Global,
        text: &mut String,
        action: Action,
        seen: &Observed<'_>,
        own: Option<&Value>,
    ) -> Result<(), AllocError>
        ensures { OnOk result
            (MakesStep self.old (string_bytes text.old) self.new (string_bytes text.new)
            (Step action (seen_as seen.now)) (option_map (λ step. view step.now) own.entry)) }
    {
        let number = next(self.number)?;
        let asked = event_for(&self.tickets, action);
        let Closest { entry, is_shown } = follow_closest(alloc, &mut self.device, &asked, seen)?;
        note_ticket(&mut self.tickets, &entry)?;
        note_own(alloc, &mut self.names, own, &entry)?;
        self.number = number;
        add_difference(text, is_shown)?;
        add_record(text, &entry)
    }

    // Makes such a step, and adds its line of an explanation. The reason is read of the device
    // before the step.
    fn explain(
        &mut self,
        alloc: Global,
        text: &mut String,
        action: Action,
        seen: &Observed<'_>,
        own: Option<&Value>,
    ) -> Result<(), AllocError>
        ensures { OnOk result
            (MakesStep self.old (string_bytes text.old) self.new (string_bytes text.new)
            (Explain action (seen_as seen.now)) (option_map (λ step. view step.now) own.entry)) }
    {
        let number = next(self.number)?;
        let asked = event_for(&self.tickets, action);
        let mut part = String::new(alloc);
        add_part(&mut part, &self.device, &asked)?;
        let Closest { entry, is_shown } = follow_closest(alloc, &mut self.device, &asked, seen)?;
        note_ticket(&mut self.tickets, &entry)?;
        note_own(alloc, &mut self.names, own, &entry)?;
        add_difference(text, is_shown)?;
        add_line(text, self.number, &entry, &part)?;
        self.number = number;
        Ok(())
    }

    // Adds the fates that were not told yet.
    fn tell_fates(&mut self, text: &mut String) -> Result<(), AllocError>
        ensures { OnOk result
            (MakesNoStep self.old (string_bytes text.old) self.new (string_bytes text.new) Fates) }
    {
        let fates = self.device.fates();
        add_fates(text, &fates[self.told.min(fates.len())..])?;
        self.told = fates.len();
        Ok(())
    }

    // Begins the history of the device anew, and adds that it did. Of fates that are forgotten none
    // was told.
    fn begin_anew(&mut self, text: &mut String, past: PastFates) -> Result<(), AllocError>
        ensures { OnOk result
            (MakesNoStep self.old (string_bytes text.old) self.new (string_bytes text.new)
            (BeginAnew past)) }
    {
        self.device.begin_anew(past)?;
        self.told = told_anew(past, self.told);
        add_anew(text)
    }

    // Adds the answer to a JSON value that means itself.
    fn answer_itself(
        &mut self,
        alloc: Global,
        text: &mut String,
        value: &Value,
    ) -> Result<(), AllocError>
        ensures { OnOk result
            (AnswersOne self.old (string_bytes text.old) self.new (string_bytes text.new)
            (IsAskedIn (view value.now)) (step_within (view value.now))) }
    {
        match parse_line(value) {
            Some(Line::Step(action, seen)) => {
                self.step(alloc, text, action, &seen, step_within(value))
            }
            Some(Line::Explain(action, seen)) => {
                self.explain(alloc, text, action, &seen, step_within(value))
            }
            Some(Line::Show) => add_shown(text, &self.device),
            Some(Line::Fates) => self.tell_fates(text),
            Some(Line::BeginAnew(past)) => self.begin_anew(text, past),
            None => {
                let why = no_step(alloc, value)?;
                add_fault(text, why.as_str())
            }
        }
    }

    // Adds the answer to a strict step, which a JSON value asks to make or to explain.
    fn answer_strict(
        &mut self,
        alloc: Global,
        text: &mut String,
        value: &Value,
        step: &Value,
    ) -> Result<(), AllocError>
        ensures { OnOk result
            (AnswersOne self.old (string_bytes text.old) self.new (string_bytes text.new)
            (IsStrictAsked (is_explanation (view value.now)) (view step.now))
            (step_within (view value.now))) }
    {
        let Some((action, seen)) = parse_step(step) else {
            let why = no_strict_step(alloc, step)?;
            return add_fault(text, why.as_str());
        };
        if is_explanation(value) {
            self.explain(alloc, text, action, &seen, step_within(value))
        } else {
            self.step(alloc, text, action, &seen, step_within(value))
        }
    }

    // What a JSON value means, where these own names are known.
    fn meaning(&self, alloc: Global, value: &Value) -> Result<Meaning, AllocError>
        requires { depth (view value.now) ≤ 127 }
        ensures { IfOk result
            (λ meaning. sense_as meaning ≡ sense_in (own_names_of self.now) (view value.now)) }
    {
        let Some(given) = &self.names else {
            return Ok(Meaning::Itself);
        };
        match step_within(value) {
            Some(step) => meaning_of(alloc, given, step),
            None => Ok(Meaning::Itself),
        }
    }

    // Adds the answer to a line that is a JSON value.
    fn answer_value(
        &mut self,
        alloc: Global,
        text: &mut String,
        value: &Value,
    ) -> Result<(), AllocError>
        requires { depth (view value.now) ≤ 127 }
        ensures { OnOk result
            (AnswersOne self.old (string_bytes text.old) self.new (string_bytes text.new)
            (IsAskedAs (sense_in (own_names_of self.old) (view value.now)) (view value.now))
            (step_within (view value.now))) }
    {
        match self.meaning(alloc, value)? {
            Meaning::Itself => self.answer_itself(alloc, text, value),
            Meaning::Strict(step) => self.answer_strict(alloc, text, value, &step),
            Meaning::Nothing(key) => {
                let why = no_strict_form(alloc, key)?;
                add_fault(text, why.as_str())
            }
        }
    }

    /// Adds the answer to a line: what the step comes to, what the device shows, the fates that
    /// were not told yet, that the history began anew, or the fault of the line, which changes
    /// nothing.
    pub fn answer(
        &mut self,
        alloc: Global,
        text: &mut String,
        line: &[u8],
    ) -> Result<(), AllocError>
        ensures { OnOk result
            (AnswersOne self.old (string_bytes text.old) self.new (string_bytes text.new)
            (Asks (own_names_of self.old) line.now) (option_and_then step_within (read line.now))) }
    {
        if line.len() > MAX_LINE {
            return add_fault(text, "line too long");
        }
        match parse_json(alloc, line) {
            Ok(value) => self.answer_value(alloc, text, &value),
            Err(ScenarioFault::NotJson) => {
                let why = no_json(alloc, line)?;
                add_fault(text, why.as_str())
            }
            Err(_) => Err(AllocError),
        }
    }
}
