//! The makes of a segment store: the plain area, and the chained area with its index.

#![tactic(auto)]

mod area;
pub mod chained;
pub mod index;
pub mod lends;
pub mod plain;
