//! The words of a listing.

/// The path and the time of a listing's row, `PATH`, `PATH+TIME` or `PATH@TIME`, and whether it is a multi-pack index.
pub fn parts_of(word: &str) -> (&str, &str, bool) {
    if let Some((path, time)) = word.split_once('@') {
        return (path, time, true);
    }
    let (path, time) = word.split_once('+').unwrap_or((word, "0"));
    (path, time, false)
}
