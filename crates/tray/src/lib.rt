// Trays of blocks: what they mean, the makes that come with the kit, and the faults that they tell.
#![tactic(auto)]

pub mod fault;
pub mod flat;
pub mod lent;
pub mod split;
pub mod trays;
