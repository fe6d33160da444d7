//! What reports tell.

/// Whether a report has a line.
pub fn has_line(report: &str, wanted: &str) -> bool {
    report.lines().any(|line| line == wanted)
}

/// How many lines of a report end so.
pub fn count_ending(report: &str, end: &str) -> usize {
    report.lines().filter(|line| line.ends_with(end)).count()
}

/// The last line of a report, and nothing of an empty one.
pub fn last_line(report: &str) -> &str {
    report.lines().last().unwrap_or("")
}

/// How many granules of the last migration have moved, by the last line of a report.
pub fn moved(report: &str) -> Option<u32> {
    let line = last_line(report);
    if let Some((_, number)) = line.split_once(" complete ") {
        return number.parse::<u32>().ok();
    }
    let (_, rest) = line.split_once(" moved ")?;
    let (number, _) = rest.split_once(" ")?;
    number.parse::<u32>().ok()
}
