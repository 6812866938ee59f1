// Where a worker serves.

/// A place at which connections are served, one after the other: where they come from, what the calls that come by them
/// use, and what may hold them.
#[derive(Drop)]
pub struct Seat<A, E, C, G> {
    pub listener: A,
    pub rand: E,
    pub clock: C,
    pub gate: G,
}

/// Why a seat's worker ended.
#[derive(Clone, Copy, Debug, PartialEq, Eq)]
pub enum SeatEnd {
    /// The listener had no connection any more.
    Closed,
    /// The listener failed: its count of faults rose.
    AcceptFault,
}
