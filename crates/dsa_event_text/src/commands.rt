//! Commands in words.

ghost use Rattle.std.specs.Prelude.{◌≡◌, ◌++◌, OnOk, string_bytes};
ghost use Rattle.dsa_event_text.specs.Text.{bad_word_text, command_with_operand, scope_text};

use crate::numbers::add_number;
use dsa_regs::{Command, Scope};
use std::alloc::AllocError;
use std::fmt::Write;

fn add_scope(text: &mut String, scope: Scope) -> Result<(), AllocError>
    ensures { OnOk result (string_bytes text.new ≡ string_bytes text.old ++ scope_text scope) }
{
    match scope {
        Scope::Device => Ok(()),
        Scope::Queue(queue) => add_number(text, " ", queue),
        Scope::Queues(_) => {
            let operand = scope.operand();
            write!(text, " 0x{operand:x}")
        }
        Scope::Pasid(pasid) => add_number(text, " ", pasid),
    }
}

/// Adds the words of a command.
pub fn add_command(text: &mut String, command: &Command) -> Result<(), AllocError>
    ensures { OnOk result
        (string_bytes text.new ≡ string_bytes text.old ++ command_with_operand command.now) }
{
    text.push_str(command.label())?;
    add_scope(text, command.scope())
}

/// Adds a word of the command register that is no command.
pub fn add_bad_word(text: &mut String, word: u32) -> Result<(), AllocError>
    ensures { OnOk result (string_bytes text.new ≡ string_bytes text.old ++ bad_word_text word) }
{
    write!(text, "command 0x{word:x}")
}
