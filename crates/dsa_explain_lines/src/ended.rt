//! Why an engine does not end an entry, in the words of those who know names and no cells.

ghost use Rattle.std.specs.Prelude.{◌≡◌, ◌*◌, ◌^◌};
ghost use Rattle.dsa_regs.specs.Command.{command_of};
ghost use Rattle.dsa_event_text.specs.Added.{Adds};
ghost use Rattle.dsa_explain_lines.specs.Sentences.{by_words, cause_words, fate_sentence, fate_verb};
ghost use Rattle.dsa_explain_lines.specs.Parts.{unended_words};

use crate::engines::add_finish_reason;
use dsa_book::{Fate, Ticket};
use dsa_device::Device;
use dsa_engines::FinishReason;
use dsa_event_text::{Added, add_number};
use dsa_regs::CommandWord;
use dsa_store::EntryStore;

// By which command an entry was aborted.
fn add_by(text: &mut String, command: u8) -> Added
    ensures { Adds result text.old text.new (by_words (command_of (command * 2 ^ 20))) }
{
    match CommandWord::parse(u32::from(command) * (1 << 20)) {
        Ok(command) => {
            text.push_str(" by ")?;
            text.push_str(command.label())
        }
        Err(_) => Ok(()),
    }
}

fn fate_verb(fate: Fate) -> &'static str
    ensures { result.now ≡ fate_verb fate }
{
    match fate {
        Fate::Completed(_) => " has completed",
        Fate::Aborted(_) => " was aborted",
        Fate::Abandoned => " was abandoned",
    }
}

fn add_cause(text: &mut String, fate: Fate) -> Added
    ensures { Adds result text.old text.new (cause_words fate) }
{
    match fate {
        Fate::Aborted(command) => add_by(text, command),
        _ => Ok(()),
    }
}

// How the entry of this name ended.
fn add_fate(text: &mut String, name: u32, fate: Fate) -> Added
    ensures { Adds result text.old text.new (fate_sentence name fate) }
{
    add_number(text, "", name)?;
    text.push_str(fate_verb(fate))?;
    add_cause(text, fate)
}

/// Adds why the engine does not end the entry of the ticket. Where the reason is what the cell of
/// the ticket holds, that is how the entry ended, or that no entry has the name.
pub fn add_unended<S: EntryStore>(
    text: &mut String,
    device: &Device<S>,
    engine: u16,
    ticket: Ticket,
    reason: &FinishReason,
) -> Added
    ensures { Adds result text.old text.new
        (unended_words device.now.state.work engine ticket reason.now) }
{
    if !matches!(
        reason,
        FinishReason::NoEntry | FinishReason::OtherName { .. }
    ) {
        return add_finish_reason(text, engine, reason);
    }
    match device.fate(ticket.name) {
        Some(fate) => add_fate(text, ticket.name, fate),
        None if ticket.name < device.next_name() => add_finish_reason(text, engine, reason),
        None => add_number(text, "no entry has the name ", ticket.name),
    }
}
