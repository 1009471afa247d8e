// The parts of an input whose files may be named.

/// Whether a line stands between two parts.
pub(crate) fn ends_part(line: &str) -> bool {
    line == "%%" || line == "%\u{1c}"
}

/// Whether a line of a schedule has a step: it isn't blank, and not the version.
fn is_step(line: &str) -> bool {
    let text = line.trim();
    !text.is_empty() && text != "@2"
}

/// Whether the schedule that an input ends with has a step.
pub fn has_step(input: &str) -> bool {
    let mut found = false;
    for line in input.lines() {
        if ends_part(line) {
            found = false;
        } else if is_step(line) {
            found = true;
        }
    }
    found
}
