//! Words and lemmas that belong to no layer: tables of causes, numbers below a bound, sums and
//! counts over lists. There is no code here.
#![tactic(auto)]
