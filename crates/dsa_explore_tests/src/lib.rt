//! Tests of searches: states, depths and findings of small worlds, as another program found them,
//! texts for documents, and what a search keeps its states by, keys and a table of strings.
#![tactic(auto)]

#[cfg(test)]
mod documents;
#[cfg(test)]
mod keys;
#[cfg(test)]
mod searches;
#[cfg(test)]
mod strings;
#[cfg(test)]
mod walks;
#[cfg(test)]
mod worlds;
