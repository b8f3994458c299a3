//! Families of documents: a document with the key `vary` stands for one document for each
//! combination of the values that it gives to places in it.
//!
//! [`Family`] makes a text of each, by an inner way to make a text of a document. [`FirstOfFamily`]
//! makes the text of the first that has one.
#![tactic(auto)]

mod axes;
mod chosen;
mod family;
mod first;
mod headings;
mod places;
pub mod rows;
mod worlds;

pub use family::Family;
pub use first::FirstOfFamily;
pub use headings::Heading;
pub use worlds::WorldShard;
