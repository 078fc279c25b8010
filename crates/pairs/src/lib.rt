// Lists of signals held in a lent area of words.
#![tactic(auto)]

pub mod lists;
