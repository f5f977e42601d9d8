// The cabinet: a tray of another make, brought from outside the crate of trays. Each column lies in
// a vector of its own, and the memory is taken when the cabinet is made. docs/TRAYS.md walks
// through it as an example of bringing a tray of one's own.
#![tactic(auto)]

pub mod cabinets;
pub mod drawers;
