//! The records of a sheet, each made of its numbers; the period and a step too, which are one number under a rule of their own.
ghost use Rattle.std.specs.Prelude.{◌≡◌, ℕ, ◌≤◌, List, Option as Maybe};
ghost use Rattle.std.proofs.Common.{lit≤};
ghost use Rattle.sheet.specs.Rules.{ends_fit, activity_keeps, step_keeps};
ghost use Rattle.sheet_read.specs.Numbers.{Reads};
ghost use Rattle.sheet_read.specs.Records.{period_from, event_from, activity_from, head_from, step_from, record_of};

use crate::fault::{RecordFault, Spot};
use crate::unread::Unread;
use sheet::records::{Activity, Class, Event, Kind, Side};

/// The rule of one kind of record, which has `N` numbers.
pub(crate) trait RecordRule<const N: usize> {
    type Record: Copy;

    /// What some numbers make, if they keep the rule.
    ghost makes: { Self → List ℕ → Maybe Self.Record };

    /// The record of these numbers, if they keep the rule.
    fn make(&self, numbers: [u16; N]) -> Option<Self::Record>
        ensures { result ≡ makes self.now numbers.entry };

    // No record has more than four numbers.
    ghost few: { N ≤ 4 };
}

/// Reads one record under its rule; `at` is where it begins.
pub(crate) fn read_record<'b, const N: usize, R: RecordRule<N>>(
    rule: &R,
    unread: Unread<'b>,
    at: Spot,
) -> Result<(R::Record, Unread<'b>), RecordFault>
    ensures { Reads unread.entry result (record_of (R.makes rule.now) N at unread.entry.rest.now) }
{
    let mut numbers = [0; N];
    let rest = unread.numbers(at, &mut numbers)?;
    let item = rule.make(numbers).ok_or(RecordFault::Rule(at))?;
    Ok((item, rest))
}

/// The rule of the period.
#[derive(Clone, Copy)]
pub(crate) struct PeriodRule;

impl RecordRule<1> for PeriodRule {
    type Record = u16;

    ghost makes = { λ _. period_from };

    fn make(&self, numbers: [u16; 1]) -> Option<u16>
        ensures { result ≡ period_from numbers }
    {
        let [period] = numbers;
        (1..=1440).contains(&period).then_some(period)
    }

    ghost few = { lit≤ tt };
}

/// The rule of the events of a sheet with this period.
#[derive(Clone, Copy)]
pub(crate) struct EventRule {
    pub period: u16,
}

impl RecordRule<4> for EventRule {
    type Record = Event;

    ghost makes = { λ s. event_from s.period };

    fn make(&self, numbers: [u16; 4]) -> Option<Event>
        ensures { result ≡ event_from self.now.period numbers }
    {
        let [truck, site, side, tolerance] = numbers;
        let side = Side::try_from(side).ok()?;
        let event = Event {
            truck,
            site,
            side,
            tolerance,
        };
        (tolerance <= self.period).then_some(event)
    }

    ghost few = { lit≤ tt };
}

/// Whether an activity of this kind may lead from `tail` to `head`.
fn ends_fit(kind: Kind, tail: Event, head: Event) -> bool
    ensures { result ≡ ends_fit kind tail head }
{
    let same_truck = tail.truck == head.truck;
    let same_site = tail.site == head.site;
    match (kind, tail.side, head.side) {
        (Kind::Drive, Side::Departure, Side::Arrival) => same_truck && !same_site,
        (Kind::Stand, Side::Arrival, Side::Departure) => same_truck && same_site,
        (Kind::Transfer, Side::Arrival, Side::Departure) => !same_truck && same_site,
        _ => false,
    }
}

/// The rule of the activities of a sheet with these events.
#[derive(Clone, Copy)]
pub(crate) struct ActivityRule<'e> {
    pub events: &'e [Event],
}

impl ActivityRule<'_> {
    /// Whether an activity keeps the rule.
    fn keeps(&self, activity: Activity) -> bool
        ensures { result ≡ activity_keeps self.now.events.now activity }
    {
        let tail = usize::from(activity.tail);
        let head = usize::from(activity.head);
        tail < head
            && head < self.events.len()
            && activity.margin <= 1440
            && ends_fit(activity.kind, self.events[tail], self.events[head])
    }
}

impl RecordRule<4> for ActivityRule<'_> {
    type Record = Activity;

    ghost makes = { λ s. activity_from s.events.now };

    fn make(&self, numbers: [u16; 4]) -> Option<Activity>
        ensures { result ≡ activity_from self.now.events.now numbers }
    {
        let [kind, tail, head, margin] = numbers;
        let kind = Kind::try_from(kind).ok()?;
        let activity = Activity {
            kind,
            tail,
            head,
            margin,
        };
        self.keeps(activity).then_some(activity)
    }

    ghost few = { lit≤ tt };
}

/// A lot's three numbers, which stand before its steps.
#[derive(Clone, Copy)]
pub struct LotHead {
    pub class: Class,
    pub parcels: u16,
    /// How many steps follow.
    pub count: u16,
}

/// The rule of a lot's three numbers.
#[derive(Clone, Copy)]
pub(crate) struct HeadRule;

impl RecordRule<3> for HeadRule {
    type Record = LotHead;

    ghost makes = { λ _. head_from };

    fn make(&self, numbers: [u16; 3]) -> Option<LotHead>
        ensures { result ≡ head_from numbers }
    {
        let [class, parcels, count] = numbers;
        let class = Class::try_from(class).ok()?;
        let head = LotHead {
            class,
            parcels,
            count,
        };
        (parcels >= 1 && (1..=32).contains(&count)).then_some(head)
    }

    ghost few = { lit≤ tt };
}

/// The rule of a step of a lot that has come to the event `from`, if it has begun.
#[derive(Clone, Copy)]
pub(crate) struct StepRule<'a> {
    pub activities: &'a [Activity],
    pub from: Option<u16>,
}

impl StepRule<'_> {
    /// Whether a step is an activity of the sheet that leads on from where the lot has come to.
    fn keeps(&self, step: u16) -> bool
        ensures { result ≡ step_keeps self.now.activities.now self.now.from step }
    {
        let step = usize::from(step);
        step < self.activities.len()
            && self
                .from
                .is_none_or(|here| self.activities[step].tail == here)
    }
}

impl RecordRule<1> for StepRule<'_> {
    type Record = u16;

    ghost makes = { λ s. step_from s.activities.now s.from };

    fn make(&self, numbers: [u16; 1]) -> Option<u16>
        ensures { result ≡ step_from self.now.activities.now self.now.from numbers }
    {
        let [step] = numbers;
        self.keeps(step).then_some(step)
    }

    ghost few = { lit≤ tt };
}
