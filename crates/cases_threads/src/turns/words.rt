//! The words of a line.

use std::alloc::Global;

/// The numbers of a line, with one blank between two of them.
pub fn numbers(alloc: Global, text: &str) -> anyhow::Result<Vec<u32>> {
    let mut numbers = Vec::new(alloc);
    for word in text.split(' ') {
        if !word.is_empty() {
            numbers.push(word.parse::<u32>()?)?;
        }
    }
    Ok(numbers)
}
