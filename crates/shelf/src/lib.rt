// The butterfly shelf: data blocks on a tray of any make, kept so that any two lost columns come back.
//
// Of the forms that stand in many places here:
// - A row and a column are numbers with no collection behind them, so loops over them go over ranges.
// - The step of a loop is a function of its own where it is an `if` round a call, since what one arm did is lost to the
//   proof where the arms meet.
// - What a call works with, the width, a block to work in and the work space, is its `Bench`. Behind a `&mut` a contract
//   says by `Kept` that the width, the lengths and both borrows stay.
#![tactic(auto)]

mod bench;
mod blocks;
mod checks;
pub mod drill;
mod gather;
pub mod get;
mod hand;
pub mod layout;
mod parities;
pub mod put;
pub mod rebuild;
mod recover;
mod regain;
pub mod rehearse;
pub mod roster;
mod scratch;
mod slots;
mod solve;
mod sums;
pub mod sweep;
