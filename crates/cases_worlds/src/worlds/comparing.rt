//! Whether plays come to the same, line for line.

/// How many lines are the same as those at their places.
pub fn count_same(lines: &[String], others: &[String]) -> usize {
    let mut same: usize = 0;
    for (line, other) in lines.iter().zip(others.iter()) {
        if line.as_str() == other.as_str() {
            same = same.saturating_add(1);
        }
    }
    same
}

/// Whether all lines are the same, and as many.
pub fn are_same(lines: &[String], others: &[String]) -> bool {
    lines.len() == others.len() && count_same(lines, others) == lines.len()
}
