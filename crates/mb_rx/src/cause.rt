/// How many datagrams a session takes at most.
pub const DATAGRAMS_MAX: u32 = 4_294_967_295;

/// Why a session ended.
#[derive(Clone, Copy, Debug, PartialEq, Eq)]
pub enum Cause {
    /// The next datagram is of a later moment than the last to listen.
    Quiet,
    /// No datagram is left.
    Ended,
    /// The sender closed the session.
    Closed,
    /// As many datagrams were taken as a session takes at most.
    Limit,
}

/// How a session ended.
#[derive(Clone, Copy, Debug, PartialEq, Eq)]
pub enum Ending {
    /// For one of the causes.
    EndsBy(Cause),
    /// The trace ends inside a record whose first byte is at this offset.
    BreaksAt(u64),
}
