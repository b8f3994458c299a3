//! Worked rows of statements of texts, of documents, of what a check tells of parties, and of
//! searches.
#![tactic(auto)]

pub mod answers;
pub mod explorations;
pub mod party_documents;
pub mod party_reports;
pub mod party_steps;
pub mod search_texts;
pub mod states_asked;
pub mod texts;
pub mod walk_texts;
