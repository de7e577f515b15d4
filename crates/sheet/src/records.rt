//! What a sheet's tables hold: one struct for each kind of record.
ghost use Rattle.std.specs.Prelude.{◌≡◌, ℕ, List};
ghost use Rattle.sheet.specs.Bytes.{event_numbers, activity_numbers};
ghost use Rattle.sheet.specs.Rules.{stretch, Within};

/// Whether a truck comes to a site or leaves it.
#[derive(Clone, Copy, PartialEq, Eq, Debug)]
pub enum Side {
    Arrival,
    Departure,
}

/// A truck's arrival at a site or departure from it.
#[derive(Clone, Copy, PartialEq, Eq, Debug)]
pub struct Event {
    pub truck: u16,
    pub site: u16,
    pub side: Side,
    /// The most minutes that this event may be late without harm.
    pub tolerance: u16,
}

/// What leads from one event to a later one.
#[derive(Clone, Copy, PartialEq, Eq, Debug)]
pub enum Kind {
    /// A truck drives from one site to another.
    Drive,
    /// A truck stands at a site between its arrival and its departure.
    Stand,
    /// Parcels go over from an arrived truck to another truck that is to depart.
    Transfer,
}

/// An activity leads from its tail event to its head event.
#[derive(Clone, Copy, PartialEq, Eq, Debug)]
pub struct Activity {
    pub kind: Kind,
    pub tail: u16,
    pub head: u16,
    /// The minutes of slack in the activity; a carry rule says what they are worth.
    pub margin: u16,
}

/// How a lot is ranked.
#[derive(Clone, Copy, PartialEq, Eq, Debug)]
pub enum Class {
    Ordinary,
    Express,
}

/// Parcels that travel together along the same activities, its steps.
#[derive(Clone, Copy, PartialEq, Eq, Debug)]
pub struct Lot {
    pub class: Class,
    pub parcels: u16,
    /// Where the lot's stretch of the step table begins.
    pub first: u16,
    /// How many steps that stretch has.
    pub count: u16,
}

/// A record that four numbers stand for in a sheet's bytes.
pub trait Numbered: Copy {
    ghost numbers: { Self → List ℕ };

    /// The four numbers, in the order of the bytes.
    fn numbers(self) -> [u16; 4]
        ensures { result ≡ numbers self };
}

impl Numbered for Event {
    ghost numbers = { event_numbers };

    fn numbers(self) -> [u16; 4] {
        [self.truck, self.site, self.side.into(), self.tolerance]
    }
}

impl Numbered for Activity {
    ghost numbers = { activity_numbers };

    fn numbers(self) -> [u16; 4] {
        [self.kind.into(), self.tail, self.head, self.margin]
    }
}

impl Lot {
    /// The lot's own steps, its stretch of the step table.
    pub fn stretch(self, steps: &[u16]) -> &[u16]
        requires { Within steps.now self }
        ensures { result.now ≡ stretch self steps.now }
    {
        let first = usize::from(self.first);
        &steps[first..first + usize::from(self.count)]
    }
}
