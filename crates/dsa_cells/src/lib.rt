//! The lists of `dsa_store` over one array of linked cells.
#![tactic(auto)]

mod fresh;
mod links;
mod rows;
mod store;

pub use store::LinkedStore;
