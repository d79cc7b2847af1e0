// A rule of an image: what it does, its five counts, its items.
#![tactic(auto)]

mod item;
mod lists;
pub mod rule;

use rules::Operator;

// What a rule does, before its counts.
#[derive(Clone, Copy)]
pub struct Head {
    pub operator: Operator,
    pub kind: u8,
    pub comment: u8,
}

#[derive(Clone, Copy)]
pub struct Counts {
    pub years: usize,
    pub monthdays: usize,
    pub weeks: usize,
    pub weekdays: usize,
    pub spans: usize,
}
