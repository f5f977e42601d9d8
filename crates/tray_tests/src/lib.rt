// Trays in use. `keeping` and `counting` are proved examples of what a caller knows of a tray; the
// tests of `edges` run the makes.
#![tactic(auto)]

pub mod counting;
pub mod edges;
pub mod keeping;
