//! Up to eight sheets in the order in which they were read.

use scenario::Pair;
use sheets::kinds::Sheet;

/// Two sheets as one model.
pub type Two = Pair<Sheet, Sheet>;

/// Four sheets as one model.
pub type Four = Pair<Two, Two>;

/// Eight sheets as one model.
pub type Eight = Pair<Four, Four>;

// Kept a count beside a nest of fixed size: sheets use fixed memory, so that no fill can fail for want of it.
/// The sheets read so far, the places that are not filled yet being empty sheets.
#[derive(Drop)]
pub struct SheetSet {
    pub(crate) sheets: Eight,
    pub(crate) read: u8,
}
