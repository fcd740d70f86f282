// Sheets as document 01 has them: their fields, what is wrong with one, and a sheet whose checks passed.
#![tactic(auto)]

pub mod check;
pub mod fault;
pub mod fields;
