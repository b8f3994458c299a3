//! Members of strict documents and steps.

ghost use Rattle.std.specs.Prelude.{◌≡◌};
ghost use Rattle.serde_json.specs.View.{view};
ghost use Rattle.dsa_expand.specs.Members.{content_as};

use dsa_scenario::Action;
use serde_json::Value;

/// What stands at a key: a value that was read, or one that is no value of the document.
#[derive(Drop)]
pub enum Content<'v> {
    Read(&'v Value),
    Made(Value),
}

impl Content<'_> {
    /// The value.
    pub fn value(&self) -> &Value
        ensures { view result.now ≡ content_as self.now }
    {
        match self {
            Content::Read(value) => value,
            Content::Made(value) => value,
        }
    }
}

/// A member of an object: a key, and what stands there.
#[derive(Drop)]
pub struct Member<'v> {
    pub key: &'v str,
    pub content: Content<'v>,
}

/// A strict step: its members, in the order in which they are written, and what it asks.
#[derive(Drop)]
pub struct StrictStep<'v> {
    pub members: Vec<Member<'v>>,
    pub action: Action,
}
