//! The device that threads share and its workers, each over both stores.

#[cfg(test)]
mod accounts;
#[cfg(test)]
mod configuring;
#[cfg(test)]
mod crew;
#[cfg(test)]
mod crowd;
#[cfg(test)]
mod gates;
#[cfg(test)]
mod heaps;
#[cfg(test)]
mod histories;
#[cfg(test)]
mod memory;
#[cfg(test)]
mod playing;
#[cfg(test)]
mod programs;
#[cfg(test)]
mod refusing;
#[cfg(test)]
mod seating;
#[cfg(test)]
mod sentences;
#[cfg(test)]
mod sharing;
#[cfg(test)]
mod soak;
#[cfg(test)]
mod stage;
#[cfg(test)]
mod steps;
#[cfg(test)]
mod stores;
mod strangers;
#[cfg(test)]
mod working;
