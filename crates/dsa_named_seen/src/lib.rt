//! Texts of the run that was seen, with own names: what [`AsSeen`](dsa_conform::AsSeen) makes of a
//! document, by a [`RenderNamed`](dsa_named::RenderNamed).
#![tactic(auto)]

mod rendering;

pub use rendering::SeenWithNames;
