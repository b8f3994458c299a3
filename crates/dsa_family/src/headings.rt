//! The first line of a world.

ghost use Rattle.std.specs.Prelude.{◌≡◌, ◌++◌, ℕ, List, OnOk, map, string_bytes};
ghost use Rattle.dsa_family.specs.Values.{IsDataText};
ghost use Rattle.dsa_family.specs.Family.{AreChosenTexts, IsHeading, path_in_heading};
ghost use Rattle.dsa_family.specs.Told.{chosen_as};

use crate::chosen::Choice;
use itoa::Buffer;
use serde_json::Value;
use std::alloc::{AllocError, Global};

/// What the first line of a world looks like.
#[derive(Clone, Copy, Debug, PartialEq, Eq)]
pub enum Heading {
    /// Words: `world 3: steps/0/threshold = 2`.
    Line,
    /// A JSON object.
    Object,
}

// Adds a path in this form.
fn add_path(
    alloc: Global,
    text: &mut String,
    heading: Heading,
    path: &str,
) -> Result<(), AllocError>
    ensures { OnOk result
        (string_bytes text.new ≡ string_bytes text.old ++ path_in_heading heading path.now) }
{
    match heading {
        Heading::Line => {
            text.push_str(path)?;
            text.push_str(" = ")
        }
        Heading::Object => {
            text.push_str(Value::try_from_str(alloc, path)?.to_string(alloc)?.as_str())?;
            text.push_str(":")
        }
    }
}

// Adds a place and its value, with a text before it.
fn add_choice(
    alloc: Global,
    text: &mut String,
    heading: Heading,
    before: &str,
    choice: &Choice<'_>,
) -> Result<(), AllocError>
    ensures { OnOk result
        ((value : List ℕ) × IsDataText (chosen_as choice.now).1 value
        × (string_bytes text.new
        ≡ string_bytes text.old
        ++ (before.now ++ (path_in_heading heading (chosen_as choice.now).0 ++ value)))) }
{
    text.push_str(before)?;
    add_path(alloc, text, heading, choice.at)?;
    text.push_str(choice.value.to_string(alloc)?.as_str())
}

// Adds places and their values in their order.
fn add_choices(
    alloc: Global,
    text: &mut String,
    heading: Heading,
    first: &str,
    next: &str,
    choices: &[Choice<'_>],
) -> Result<(), AllocError>
    ensures { OnOk result
        ((added : List ℕ)
        × AreChosenTexts heading first.now next.now (map chosen_as choices.now) added
        × (string_bytes text.new ≡ string_bytes text.old ++ added)) }
{
    let mut before = first;
    for choice in choices {
        add_choice(alloc, text, heading, before, choice)?;
        before = next;
    }
    Ok(())
}

// Adds the first line in words.
fn add_line(
    alloc: Global,
    text: &mut String,
    world: u64,
    choices: &[Choice<'_>],
) -> Result<(), AllocError>
    ensures { OnOk result
        ((line : List ℕ) × IsHeading Heading.Line world (map chosen_as choices.now) line
        × (string_bytes text.new ≡ string_bytes text.old ++ line)) }
{
    let mut buffer = Buffer::new();
    text.push_str("world ")?;
    text.push_str(buffer.format(world))?;
    add_choices(alloc, text, Heading::Line, ": ", ", ", choices)?;
    text.push_str("\n")
}

// Adds the first line as an object.
fn add_object(
    alloc: Global,
    text: &mut String,
    world: u64,
    choices: &[Choice<'_>],
) -> Result<(), AllocError>
    ensures { OnOk result
        ((line : List ℕ) × IsHeading Heading.Object world (map chosen_as choices.now) line
        × (string_bytes text.new ≡ string_bytes text.old ++ line)) }
{
    let mut buffer = Buffer::new();
    text.push_str("{\"world\":")?;
    text.push_str(buffer.format(world))?;
    text.push_str(",\"at\":{")?;
    add_choices(alloc, text, Heading::Object, "", ",", choices)?;
    text.push_str("}}\n")
}

/// Adds the first line of the world of this number, which has these values.
pub fn add_heading(
    alloc: Global,
    text: &mut String,
    heading: Heading,
    world: u64,
    choices: &[Choice<'_>],
) -> Result<(), AllocError>
    ensures { OnOk result
        ((line : List ℕ) × IsHeading heading world (map chosen_as choices.now) line
        × (string_bytes text.new ≡ string_bytes text.old ++ line)) }
{
    match heading {
        Heading::Line => add_line(alloc, text, world, choices),
        Heading::Object => add_object(alloc, text, world, choices),
    }
}
