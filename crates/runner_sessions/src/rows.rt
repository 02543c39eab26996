// Tables as texts: a row of fields with bars between, and a semicolon after each row but the last.

/// The text before the first bar, and the text behind it: nothing if there is no bar.
pub fn cut(row: &str) -> (&str, &str) {
    row.split_once('|').unwrap_or((row, ""))
}

/// The first three fields.
pub fn three_of(row: &str) -> (&str, &str, &str) {
    let (first, others) = cut(row);
    let (second, third) = cut(others);
    (first, second, third)
}
