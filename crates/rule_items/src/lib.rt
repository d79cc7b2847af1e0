// Readers of a rule's codes and items. The first refusal is the answer; at a place that was refused before nothing is read, and it stays.
#![tactic(auto)]

pub mod codes;
pub mod dates;
pub mod spans;
pub mod weekdays;
pub mod years;
