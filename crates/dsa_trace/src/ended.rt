//! The entries that a step ended.

ghost use Rattle.std.specs.Prelude.{◌≡◌, ◌*◌, ◌^◌, codes, flat_map};
ghost use Rattle.std.specs.Fmt.{decimal};
ghost use Rattle.dsa_regs.specs.Command.{command_of};
ghost use Rattle.dsa_event_text.specs.Added.{Adds};
ghost use Rattle.dsa_trace.specs.Ended.{command_value, ended_count, ended_rows, fate_members, fate_object};
ghost use Rattle.dsa_trace.specs.Ended.{fate_objects, parent_member};

use crate::results::add_status;
use dsa_book::{Fate, FateRow, FinishAnswer, IssueAnswer, Reply, StartAnswer};
use dsa_event_text::{Added, add_number};
use dsa_regs::CommandWord;
use dsa_scenario::Record;

fn ended_count(reply: &Reply) -> u32
    ensures { result ≡ ended_count reply.now }
{
    match reply {
        Reply::Finish(FinishAnswer::Done(_)) => 1,
        Reply::Start(StartAnswer::Abandoned(count)) => *count,
        Reply::Issue(IssueAnswer::Ended { aborted }) => *aborted,
        _ => 0,
    }
}

/// The fates of the entries that a step with this record ended, after which these are the fates.
pub fn ended_rows<'a>(entry: &Record, fates: &'a [FateRow]) -> &'a [FateRow]
    ensures { result.now ≡ ended_rows entry.now fates.now }
{
    match entry {
        Record::Stepped(step) => {
            &fates[fates
                .len()
                .saturating_sub(ended_count(&step.reply) as usize)..]
        }
        Record::Refused(_) => &[],
    }
}

fn add_parent(text: &mut String, parent: Option<u32>) -> Added
    ensures { Adds result text.old text.new (parent_member parent) }
{
    match parent {
        Some(name) => add_number(text, ",\"parent\":", name),
        None => text.push_str(",\"parent\":null"),
    }
}

// The command of this number.
fn add_remover(text: &mut String, number: u8) -> Added
    ensures { Adds result text.old text.new (command_value (command_of (number * 2 ^ 20))) }
{
    match CommandWord::parse(u32::from(number) * (1 << 20)) {
        Ok(command) => {
            text.push_str("\"")?;
            text.push_str(command.label())?;
            text.push_str("\"")
        }
        Err(_) => text.push_str("null"),
    }
}

fn add_how(text: &mut String, fate: Fate) -> Added
    ensures { Adds result text.old text.new (fate_members fate) }
{
    match fate {
        Fate::Completed(status) => {
            text.push_str(",\"how\":\"completed\"")?;
            add_status(text, status)
        }
        Fate::Aborted(command) => {
            text.push_str(",\"how\":\"aborted\",\"command\":")?;
            add_remover(text, command)
        }
        Fate::Abandoned => text.push_str(",\"how\":\"abandoned\""),
    }
}

fn add_fate(text: &mut String, before: &str, row: &FateRow) -> Added
    ensures { Adds result text.old text.new (fate_object before.now row.now) }
{
    add_number(text, before, row.name)?;
    add_parent(text, row.parent)?;
    add_how(text, row.fate)?;
    text.push_str("}")
}

// The objects of fates, each behind a comma.
fn add_further(text: &mut String, rows: &[FateRow]) -> Added
    ensures { Adds result text.old text.new
        (flat_map (fate_object (codes ",{\"name\":")) rows.now) }
{
    for row in rows {
        add_fate(text, ",{\"name\":", row)?;
    }
    Ok(())
}

/// Adds the objects of fates, with commas between them.
pub fn add_fates(text: &mut String, rows: &[FateRow]) -> Added
    ensures { Adds result text.old text.new (fate_objects rows.now) }
{
    match rows.split_first() {
        None => Ok(()),
        Some((first, rest)) => {
            add_fate(text, "{\"name\":", first)?;
            add_further(text, rest)
        }
    }
}
