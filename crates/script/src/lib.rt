// The exam script: commands of one letter each, with operands of fixed widths behind it.
#![tactic(auto)]

pub mod command;
pub mod reader;
pub mod source;
