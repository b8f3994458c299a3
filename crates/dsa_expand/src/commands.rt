//! Command words, by the names of commands.

ghost use Rattle.std.specs.Prelude.{◌≡◌, ◌<◌, ◌^◌, map, IfSome};
ghost use Rattle.serde_json.specs.View.{view};
ghost use Rattle.dsa_expand.specs.Commands.{command_called, group_of, mask_operand, only_number};
ghost use Rattle.dsa_expand.specs.Commands.{operand_in, queues_operand, word_said};

use crate::values::{number_below, set_of};
use dsa_regs::{Command, QueueMask, Scope};
use serde_json::Value;

/// One more than the greatest operand (Intel DSA specification, Command register).
const OPERANDS: u64 = 0x10_0000;

// The command of this name.
fn command_called(name: &str, operand: u32) -> Option<Command>
    requires { operand < 2 ^ 20 }
    ensures { result ≡ command_called name.now operand }
{
    let queues = QueueMask {
        group: (operand >> 16) as u8,
        mask: (operand & 0xffff) as u16,
    };
    match name {
        "enable-device" => Some(Command::EnableDevice),
        "disable-device" => Some(Command::DisableDevice),
        "drain-all" => Some(Command::DrainAll),
        "abort-all" => Some(Command::AbortAll),
        "reset-device" => Some(Command::ResetDevice),
        "enable-wq" => Some(Command::EnableWq(operand)),
        "disable-wq" => Some(Command::DisableWq(queues)),
        "drain-wq" => Some(Command::DrainWq(queues)),
        "abort-wq" => Some(Command::AbortWq(queues)),
        "reset-wq" => Some(Command::ResetWq(queues)),
        "drain-pasid" => Some(Command::DrainPasid(operand)),
        "abort-pasid" => Some(Command::AbortPasid(operand)),
        _ => None,
    }
}

fn only_number(numbers: &[Value]) -> Option<u64>
    ensures number { result ≡ only_number (map view numbers.now) }
    ensures small { IfSome result (λ number. number < 2 ^ 20) }
{
    match numbers {
        [number] => number_below(OPERANDS, number),
        _ => None,
    }
}

// The group of sixteen of the first queue.
fn group_of(queues: &[Value]) -> Option<u64>
    ensures group { result ≡ group_of (map view queues.now) }
    ensures small { IfSome result (λ group. group < 16) }
{
    match queues.first() {
        Some(queue) => Some(number_below(256, queue)? / 16),
        None => Some(0),
    }
}

// The operand with the mask of these queues.
fn mask_operand(queues: &[Value]) -> Option<u64>
    ensures operand { result ≡ mask_operand (map view queues.now) }
    ensures small { IfSome result (λ operand. operand < 2 ^ 20) }
{
    let group = group_of(queues)?;
    let mask = set_of(16 * group, 16, queues)?;
    Some(65_536 * group + mask)
}

// The operand of a command about a queue or the queues of a mask.
fn queues_operand(scope: Scope, queues: &[Value]) -> Option<u64>
    ensures operand { result ≡ queues_operand scope (map view queues.now) }
    ensures small { IfSome result (λ operand. operand < 2 ^ 20) }
{
    match scope {
        Scope::Queue(_) => only_number(queues),
        Scope::Queues(_) => mask_operand(queues),
        Scope::Device | Scope::Pasid(_) => None,
    }
}

// The operand of a command that is about such, by what the step says.
#[tactic(auto, using(crate::proofs::Lists::listed))]
fn operand_in(scope: Scope, step: &Value) -> Option<u64>
    ensures operand { result ≡ operand_in scope (view step.now) }
    ensures small { IfSome result (λ operand. operand < 2 ^ 20) }
{
    match (step.get("operand"), step.get("queues")) {
        (Some(operand), None) => number_below(OPERANDS, operand),
        (None, Some(queues)) => queues_operand(scope, queues.as_array()?.as_slice()),
        (None, None) if scope == Scope::Device => Some(0),
        _ => None,
    }
}

/// The word of the command that is called so, with the operand that the step says.
pub fn word_said(step: &Value, called: &Value) -> Option<u32>
    ensures { result ≡ word_said (view step.now) (view called.now) }
{
    let name = called.as_str()?;
    let scope = command_called(name, 0)?.scope();
    let operand = operand_in(scope, step)?;
    command_called(name, operand as u32)?.word()
}
