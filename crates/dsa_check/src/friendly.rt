//! What `expand` writes in place of what is found in a step.

ghost use Rattle.std.specs.Prelude.{◌≡◌};
ghost use Rattle.serde_json.specs.View.{view};
ghost use Rattle.dsa_check.specs.Reasons.{calls_command, expands_missing, expands_found};

use crate::fields::Found;
use serde_json::Value;

/// Whether the object calls a command by its name.
pub fn calls_command(object: &Value) -> bool
    ensures { result ≡ calls_command (view object.now) }
{
    match object.get("command") {
        Some(value) => value.as_str().is_some(),
        None => false,
    }
}

/// Whether `expand` writes the key of this name, where the object does not have it.
pub fn expands_missing(object: &Value, name: &str) -> bool
    ensures { result ≡ expands_missing (view object.now) name.now }
{
    name == "word" && calls_command(object)
}

/// Whether `expand` writes what is wanted at the key of a step, where this is found.
pub fn expands_found(name: &str, found: Found) -> bool
    ensures { result ≡ expands_found name.now found }
{
    match found {
        Found::Object => name == "desc",
        Found::Array => name == "queues" || name == "engines",
        Found::Text => name == "name",
        _ => false,
    }
}
