ghost use Rattle.std.specs.Prelude.{◌≤◌, length};

/// Holds the greatest of the records that it is offered, as many as it has cells, greatest first.
/// The first `filled` cells hold them. The other cells are as they were lent.
// Kept as cells with a count beside: a keeper works in memory that its caller lends, and allocates none.
#[derive(Drop)]
pub struct Keeper<'a, T> {
    pub(crate) cells: &'a mut [T],
    pub(crate) filled: usize,
    ghost fits: { filled ≤ length cells.now },
}
