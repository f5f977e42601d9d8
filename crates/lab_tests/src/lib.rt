// Tests of the lab: what ends a script, and what no script can reach.
#![tactic(auto)]

mod beyond;
mod endings;
