//! Tests of the layers up to the shared device and its workers, each by its public calls: of one
//! layer, of both stores and of devices over them, of reasons that no sentence of an explanation
//! tells, and of the device that threads share.
#![tactic(auto)]

/// What a test claims. It is a call, at which a proof does not split as it does at an `assert!`.
#[cfg(test)]
macro_rules! claim {
    ($rt:expr; $holds:expr) => {
        $crate::claims::is_so($rt, $holds, stringify!($holds))
    };
}

/// The same of two values that have to be equal, at a row of a table or at none.
#[cfg(test)]
macro_rules! same {
    ($rt:expr; $found:expr, $wanted:expr) => {
        $crate::claims::are_same($rt, &$found, &$wanted, stringify!($found), 0)
    };
    ($rt:expr; $found:expr, $wanted:expr, $row:expr) => {
        $crate::claims::are_same($rt, &$found, &$wanted, stringify!($found), $row as u64)
    };
}

#[cfg(test)]
mod claims;
#[cfg(test)]
mod layers;
#[cfg(test)]
mod rows;
mod shared;
#[cfg(test)]
mod untold;
