// Tests of the shelf's calls, over trays of several makes.
#![tactic(auto)]

mod images;
mod limits;
mod pairs;
mod refusals;
mod rounds;
