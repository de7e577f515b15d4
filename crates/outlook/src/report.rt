//! A report: what is told of an event's delay.

/// An event is said to be late by so many minutes.
#[derive(Clone, Copy)]
pub struct Report {
    /// The number of the event.
    pub event: u16,
    pub minutes: u16,
}
