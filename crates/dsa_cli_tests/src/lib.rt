//! Tests of the program's words, of documents and of dialogues, with streams that count: the exit
//! status, what is written, and how often each stream is asked, also where one call fails and those
//! after it would work. No contract says how often a stream is asked.
#![tactic(auto)]

#[cfg(test)]
mod failing;
#[cfg(test)]
mod reading;
#[cfg(test)]
mod runs;
#[cfg(test)]
mod streams;
#[cfg(test)]
mod unread;
