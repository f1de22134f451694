//! Examples of kinds, searches and sorting, and a kind that somebody else adds.

#![tactic(auto)]

pub mod casks;
#[cfg(test)]
mod orders;
#[cfg(test)]
mod searches;
#[cfg(test)]
mod sorts;
