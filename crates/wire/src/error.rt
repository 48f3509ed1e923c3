//! What is said of what can't be read.
use thiserror::Error;

/// Bytes that are no order or no answer, or a number that is no kind or no refusal.
#[derive(Clone, Copy, Debug, PartialEq, Eq, Error)]
#[error("these bytes, or this number, stand for nothing")]
pub struct ReadError;
