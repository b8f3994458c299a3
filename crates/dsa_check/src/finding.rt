//! What is told of a document.

ghost use Rattle.std.specs.Prelude.{◌≡◌, None, option_map};
ghost use Rattle.dsa_check.specs.Findings.{IsNowhere};
ghost use Rattle.dsa_check.specs.Remarks.{aim_of, is_of_caps, name_of};

use crate::fields::{Found, Key};
use crate::syntax::Syntax;
use dsa_scenario::{Form, ScenarioFault, StepKind};

/// What is told of a document.
#[derive(Drop)]
pub struct Judgement {
    /// All faults, in the order in which a run would tell each where no other came before it.
    pub faults: Vec<Finding>,
    /// All warnings: those of the document, of its caps, and of its steps in their order.
    pub warnings: Vec<Finding>,
}

/// A fault of a document, or a warning, with all that is known of it.
#[derive(Drop)]
pub struct Finding {
    /// The fault, as a run tells it where no other comes before it. A warning has that of its part.
    pub fault: ScenarioFault,
    pub place: Place,
    /// What is wrong there. It may be empty.
    pub reasons: Vec<Reason>,
}

/// Where it is, as far as that is known: a line and a column, counted from 1, and the kind of
/// the step.
#[derive(Clone, Copy)]
pub struct Place {
    pub line: Option<usize>,
    pub column: Option<usize>,
    pub kind: Option<StepKind>,
}

const NOWHERE: Place = Place {
    line: None,
    column: None,
    kind: None,
};

/// What is wrong with an object, or with a text that is no JSON.
#[derive(Drop)]
pub enum Reason {
    /// The key is missing.
    Missing {
        key: Key,
    },
    /// The key is missing, and one stands there that nobody asks for and that is spelled nearly so.
    Misspelled {
        key: Key,
        found: String,
    },
    /// The key is missing, and `expand` writes it.
    Expandable {
        key: Key,
    },
    /// What stands at the key is of another form.
    Unfit {
        key: Key,
        found: Found,
        wanted: Form,
    },
    /// The number of digits is odd.
    OddDigits {
        key: Key,
        count: usize,
    },
    /// There are more than 128 digits.
    ManyDigits {
        key: Key,
        count: usize,
    },
    /// What stands there has a character that is no hexadecimal digit, the first of which is this
    /// one, counted from 1.
    NoDigit {
        key: Key,
        at: usize,
    },
    /// The text `as` is no own name.
    NoOwnName,
    /// It is no object.
    NoObject {
        found: Found,
    },
    /// The text `do` names no kind of step; it is told where it is short and plain, and the kind
    /// that is spelled nearly so.
    UnknownKind {
        found: Option<String>,
        near: Option<StepKind>,
    },
    /// The key, which is told where it is short and plain, is one that nothing reads; and a known
    /// one that is spelled nearly so.
    Stray {
        found: Option<String>,
        near: Option<&'static str>,
    },
    /// The key, which is told where it is short and plain, comes more than once.
    Twice {
        found: Option<String>,
    },
    /// The bytes are no text.
    NotUtf8,
    /// The text is no JSON.
    Syntax(Syntax),
}

/// What a reason points to.
#[derive(Clone, Copy, Debug, PartialEq, Eq)]
pub enum Aim {
    /// The value that is told of.
    Whole,
    /// The value at a key of it.
    Value,
    /// A key of it.
    Key,
}

impl Reason {
    /// What it points to.
    pub fn aim(&self) -> Aim
        ensures { result ≡ aim_of self.now }
    {
        match self {
            Reason::Missing { .. }
            | Reason::Expandable { .. }
            | Reason::NoObject { .. }
            | Reason::NotUtf8
            | Reason::Syntax(_) => Aim::Whole,
            Reason::Misspelled { .. } | Reason::Stray { .. } | Reason::Twice { .. } => Aim::Key,
            _ => Aim::Value,
        }
    }

    /// The key that it is of, where that is told.
    pub fn name(&self) -> Option<&str>
        ensures { option_map (λ name. name.now) result ≡ name_of self.now }
    {
        match self {
            Reason::Missing { key }
            | Reason::Expandable { key }
            | Reason::Unfit { key, .. }
            | Reason::OddDigits { key, .. }
            | Reason::ManyDigits { key, .. }
            | Reason::NoDigit { key, .. } => Some(key.name),
            Reason::Misspelled { found, .. } => Some(found.as_str()),
            Reason::Stray { found, .. } | Reason::Twice { found } => found.as_deref(),
            Reason::UnknownKind { .. } => Some("do"),
            Reason::NoOwnName => Some("as"),
            Reason::NoObject { .. } | Reason::NotUtf8 | Reason::Syntax(_) => None,
        }
    }

    /// Whether its key is one of the caps of a document.
    pub fn is_of_caps(&self) -> bool
        ensures { result ≡ is_of_caps self.now }
    {
        match self {
            Reason::Missing { key }
            | Reason::Misspelled { key, .. }
            | Reason::Expandable { key }
            | Reason::Unfit { key, .. }
            | Reason::OddDigits { key, .. }
            | Reason::ManyDigits { key, .. }
            | Reason::NoDigit { key, .. } => key.in_caps,
            _ => false,
        }
    }
}

/// A finding of the whole document or of another part without a place.
pub fn whole(fault: ScenarioFault, reasons: Vec<Reason>) -> Finding
    ensures fault { result.fault ≡ fault }
    ensures place { IsNowhere result.place }
    ensures kind { result.place.kind ≡ None }
    ensures reasons { result.reasons ≡ reasons }
{
    Finding {
        fault,
        place: NOWHERE,
        reasons,
    }
}
