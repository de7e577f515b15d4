//! The tables that a caller lends for a plan.
ghost use Rattle.std.specs.Prelude.{◌≡◌, ◌&&◌, length, nat_le};

/// Tables for the work of a plan: what they hold before and after does not matter.
#[derive(Drop)]
pub struct Work<'t, X> {
    /// The worst timetable, a cell an event.
    pub worst: &'t mut [u16],
    /// The bills, a cell an event.
    pub bills: &'t mut [X],
}

/// Tables that a plan is written into.
#[derive(Drop)]
pub struct PlanTables<'t> {
    /// The lateness of each event.
    pub late: &'t mut [u16],
    /// A byte for each activity: 1 where it goes, 0 otherwise.
    pub gone: &'t mut [u8],
}

impl<X> Work<'_, X> {
    /// Whether there is a cell for each of so many events.
    pub(crate) fn has_room(&self, events: usize) -> bool
        ensures { result ≡ (nat_le events (length self.now.worst.now) && nat_le events (length self.now.bills.now)) }
    {
        events <= self.worst.len() && events <= self.bills.len()
    }
}

impl PlanTables<'_> {
    /// Whether there is a cell for each of so many events, and a byte for each of so many activities.
    pub(crate) fn has_room(&self, events: usize, activities: usize) -> bool
        ensures { result ≡ (nat_le events (length self.now.late.now) && nat_le activities (length self.now.gone.now)) }
    {
        events <= self.late.len() && activities <= self.gone.len()
    }
}
