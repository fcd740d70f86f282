// The text form of a sheet (docs/TEXT.md), read: text into the two lists that the proved writer takes, and the line of the text that a refusal is about.
#![tactic(auto)]

pub mod fault;
mod item;
pub mod lines;
mod lists;
pub mod sheet_of;
