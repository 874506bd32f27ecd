use crate::operation::Operation;

/// A seat: one user of the index, with one operation at a time.
#[derive(Clone, Copy, Debug, PartialEq, Eq)]
pub enum Seat {
    Closed,
    Idle,
    Busy(Operation),
}
