//! Lines of a script, of which one may take several steps.
use crate::step::Step;

/// A line of a script.
#[derive(Drop)]
pub enum Line {
    One(Step),
    /// All turns of a handle up to and including the first whose outcome isn't pending.
    Finish { handle: u32 },
}
