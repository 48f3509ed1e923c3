//! Orders and answers as bytes: what stands in them, how they are read and how they are written.
#![tactic(auto)]

pub mod answer;
mod bytes;
pub mod error;
pub mod laws;
pub mod order;
#[cfg(test)]
mod tests;
