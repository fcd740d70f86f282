// Tests of one row of a list from elsewhere: whether it is a place, and whether it equals an earlier row.
#![tactic(auto)]

pub mod equal;
pub mod place;
