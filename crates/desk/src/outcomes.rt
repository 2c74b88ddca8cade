//! What becomes of an order.
use crate::replies::Reply;

/// What becomes of an order: a reply, or a statement of a trader, which stands in the place that was lent.
#[derive(Clone, Copy)]
pub(crate) enum Outcome {
    Replied(Reply),
    Stated(u64),
}
