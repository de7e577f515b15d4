//! How a transfer is marked.

/// What the yard has decided about a transfer.
#[derive(Clone, Copy, PartialEq, Eq, Debug)]
pub enum Mark {
    /// Nothing yet: it may wait or go.
    Unmarked,
    /// It waits for what comes late.
    Held,
    /// It goes, whatever comes late.
    Struck,
}
