//! The calls for C. `dsa_model.h` says of each what it does; a handle is one that C made of zeros
//! and gave to these calls alone.
#![tactic(auto)]

mod anew;
mod answer;
mod awaited;
mod buffers;
mod commanded;
mod entries;
mod events;
mod handle;
mod kinds;
mod numbers;
mod opening;
mod place;
mod reads;
mod reason;
mod reasons;
mod removed;
mod saving;
mod standing;
mod steps;
mod unboxed;
mod why;
mod words;
