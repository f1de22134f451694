//! Examples of stores, areas and spans: each refusal, and which comes first.

#![tactic(auto)]

#[cfg(test)]
mod areas_refuse;
#[cfg(test)]
mod chains;
#[cfg(test)]
mod pool;
#[cfg(test)]
mod spans_refuse;
