// The lab: runs the commands of an exam script on a shelf, and tells of each in one line.
#![tactic(auto)]

pub mod answer;
mod begin;
mod fill;
mod line;
mod obey;
pub mod run;
pub mod shelf_lab;
pub mod transcript;
