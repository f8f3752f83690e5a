//! What is told of requests and of responses alike.

/// The word for whether a connection ends.
pub fn ending(last: bool) -> &'static str {
    if last { "ends" } else { "goes on" }
}
