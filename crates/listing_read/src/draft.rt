//! A draft of a sheet: its numbers, section by section, which need keep no rule as yet.
ghost use Rattle.std.specs.Prelude.{◌≡◌, [], ◌∷◌, ◌++◌, IfOk, OnOk};
ghost use Rattle.listing_read.specs.Numbers.{Added, Empty, lot_numbers, numbers_bytes, part_bytes, draft_bytes};

use crate::fault::DraftFault;
use sheet::records::{Class, Numbered};
use std::alloc::{AllocError, Global};

/// How many records a section has, and the numbers of all of them in a row.
#[derive(Drop)]
pub struct Section {
    count: u16,
    numbers: Vec<u16>,
}

/// The four sections of a sheet.
#[derive(Drop)]
pub struct Draft {
    pub(crate) terms: Section,
    pub(crate) events: Section,
    pub(crate) activities: Section,
    pub(crate) lots: Section,
}

impl Section {
    fn new(heap: Global) -> Section
        ensures { Empty result }
    {
        Section {
            count: 0,
            numbers: Vec::new(heap),
        }
    }

    /// Adds a period.
    pub(crate) fn add_period(&mut self, period: u16) -> Result<(), DraftFault>
        ensures { OnOk result (Added self.old (period ∷ []) self.new) }
    {
        self.add_both(&[period], &[])
    }

    /// Adds an event or an activity, by its numbers.
    pub(crate) fn add<R: Numbered>(&mut self, item: R) -> Result<(), DraftFault>
        ensures { OnOk result (Added self.old (R.numbers item) self.new) }
    {
        self.add_both(&item.numbers(), &[])
    }

    /// Adds a lot with its steps.
    pub(crate) fn add_lot(
        &mut self,
        class: Class,
        parcels: u16,
        steps: &[u16],
    ) -> Result<(), DraftFault>
        ensures { OnOk result (Added self.old (lot_numbers class parcels steps.now) self.new) }
    {
        let count = u16::try_from(steps.len()).map_err(|_| DraftFault::Steps)?;
        self.add_both(&[class.into(), parcels, count], steps)
    }

    /// Adds one record, of these numbers and then those; where memory gives out, the draft is no longer of use.
    fn add_both(&mut self, these: &[u16], those: &[u16]) -> Result<(), DraftFault>
        ensures { OnOk result (Added self.old (these.now ++ those.now) self.new) }
    {
        let count = self.count.checked_add(1).ok_or(DraftFault::Records)?;
        self.numbers.extend_from_slice(these)?;
        self.numbers.extend_from_slice(those)?;
        self.count = count;
        Ok(())
    }

    /// Adds the section's bytes to those of the sections before it.
    fn add_to(&self, bytes: &mut Vec<u8>) -> Result<(), AllocError>
        ensures { OnOk result (bytes.new.items ≡ bytes.old.items ++ part_bytes self.now) }
    {
        add_numbers(bytes, &[self.count])?;
        add_numbers(bytes, self.numbers.as_slice())
    }
}

impl Draft {
    /// A draft with no record.
    pub(crate) fn new(heap: Global) -> Draft
        ensures { Empty result.terms × Empty result.events × Empty result.activities × Empty result.lots }
    {
        Draft {
            terms: Section::new(heap),
            events: Section::new(heap),
            activities: Section::new(heap),
            lots: Section::new(heap),
        }
    }

    /// The draft as the bytes of a sheet.
    pub fn to_bytes(&self, heap: Global) -> Result<Vec<u8>, AllocError>
        ensures { IfOk result (λ bytes. bytes.items ≡ draft_bytes self.now) }
    {
        let mut bytes = Vec::new(heap);
        self.terms.add_to(&mut bytes)?;
        self.events.add_to(&mut bytes)?;
        self.activities.add_to(&mut bytes)?;
        self.lots.add_to(&mut bytes)?;
        Ok(bytes)
    }
}

/// Adds each number's two bytes, the high byte first.
fn add_numbers(bytes: &mut Vec<u8>, numbers: &[u16]) -> Result<(), AllocError>
    ensures { OnOk result (bytes.new.items ≡ bytes.old.items ++ numbers_bytes numbers.now) }
{
    for number in numbers {
        bytes.extend_from_slice(&number.to_be_bytes())?;
    }
    Ok(())
}
