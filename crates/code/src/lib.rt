// The butterfly code: an erasure code by XOR alone over k data columns and two parity columns.
// docs/RULES.md tells the rules in words; specs/ has them as definitions.
#![tactic(auto)]

pub mod laws;
pub mod lines;
pub mod neighbours;
pub mod places;
pub mod widths;
