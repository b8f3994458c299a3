//! Whether a question can be read.

ghost use Rattle.std.specs.Prelude.{◌≡◌, [], codes, is_some, IfOk};
ghost use Rattle.serde_json.specs.{View.{view}, Find.{get}};
ghost use Rattle.dsa_questions.specs.{Formed.{as_names}, Reading.{name_by}};
ghost use Rattle.dsa_questions.specs.Judging.{is_formed, is_question};

use crate::question::{Kind, Questions};
use crate::reading::{add_question, has_question_keys};
use crate::stating::Naming;
use crate::words::is_name;
use serde_json::Value;
use std::alloc::{AllocError, Global};

/// Whether the object has no name, or one that a question may have.
pub fn has_question_name(object: &Value) -> bool
    ensures { result ≡ is_some (name_by 0 (get (codes "name") (view object.now))) }
{
    match object.get("name") {
        None => true,
        Some(value) => match value.as_str() {
            Some(text) => is_name(text),
            None => false,
        },
    }
}

/// Whether the object has `that` and no other key, but for a name that a question may have. A
/// question that can be read does, whatever it may name.
pub fn is_formed(object: &Value) -> bool
    ensures { result ≡ is_formed (view object.now) }
{
    has_question_keys(object) && has_question_name(object) && object.get("that").is_some()
}

/// Whether a question of this kind can be read, where this may be named. It does not depend on the
/// questions before it.
pub fn is_question(
    alloc: Global,
    kind: Kind,
    naming: &Naming<'_>,
    object: &Value,
) -> Result<bool, AllocError>
    ensures { IfOk result
        (λ good. good ≡ is_question kind (as_names naming.now) (view object.now)) }
{
    let mut questions = Questions {
        items: Vec::new(alloc),
        watches: Vec::new(alloc),
    };
    add_question(alloc, &mut questions, kind, naming, object)
}
