//! The lines of a script.

/// Whether a line has no step: it is empty, or a comment.
fn is_skipped(line: &[u8]) -> bool {
    match line.first() {
        Some(first) => *first == b'#',
        None => true,
    }
}

/// The line with this number, from 1, as far as the text has it.
pub(crate) fn line_at(text: &[u8], number: u32) -> Option<&[u8]> {
    let index = (number as usize).checked_sub(1)?;
    text.split(|byte| *byte == b'\n').nth(index)
}

/// The line of the step with this number, both from 1, and its text.
pub(crate) fn line_of_step(text: &[u8], step: u32) -> Option<(u32, &[u8])> {
    let mut number = 0u32;
    let mut steps = 0u32;
    for line in text.split(|byte| *byte == b'\n') {
        number = number.saturating_add(1);
        if !is_skipped(line) {
            steps = steps.saturating_add(1);
            if steps == step {
                return Some((number, line));
            }
        }
    }
    None
}
