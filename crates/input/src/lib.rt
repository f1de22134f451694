//! What the program reads of gyles in its input.

#![tactic(auto)]

pub mod names;
