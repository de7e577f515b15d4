//! Reading a listing: its lines become a draft of a sheet, or the first line that cannot be read is named.
ghost use Rattle.std.specs.Prelude.{◌≡◌, ◌+◌, ◌==◌, count_by, IfErr, IsUtf8, OnOk};
ghost use Rattle.listing_read.specs.declared.fault.Wrong.TheVariants.{NoText};

use crate::draft::Draft;
use crate::fault::{ListingFault, Wrong};
use crate::fields::{read_activity, read_class, read_event, read_number, read_period, read_steps};
use std::alloc::Global;

/// The draft that a listing's lines make.
pub fn read_listing(heap: Global, bytes: &[u8]) -> Result<Draft, ListingFault<'_>>
    ensures text { OnOk result (IsUtf8 bytes.now) }
    ensures no_text { (IsUtf8 bytes.now → ⊥) → IfErr result (λ fault. fault.wrong ≡ NoText) }
{
    let text = std::str::from_utf8(bytes).map_err(|error| ListingFault {
        line: line_of(&bytes[..error.valid_up_to()]),
        wrong: Wrong::NoText,
    })?;
    read_lines(heap, text)
}

fn read_lines(heap: Global, text: &str) -> Result<Draft, ListingFault<'_>> {
    let mut draft = Draft::new(heap);
    for (i, line) in text.lines().enumerate() {
        draft
            .read_line(heap, line)
            .map_err(|wrong| ListingFault { line: i + 1, wrong })?;
    }
    Ok(draft)
}

/// The number of the line, counted from 1, that these bytes come to.
fn line_of(before: &[u8]) -> usize
    ensures { result ≡ count_by (λ b. b == 10) before.now + 1 }
{
    before.iter().filter(|byte| **byte == b'\n').count() + 1
}

impl Draft {
    /// Adds what a line says; a blank line, and one that begins with `#`, says nothing.
    fn read_line<'a>(&mut self, heap: Global, line: &'a str) -> Result<(), Wrong<'a>> {
        if line.starts_with('#') {
            return Ok(());
        }
        let words: Vec<&'a str> = line.split_whitespace().collect(heap)?;
        match words.as_slice() {
            [] => Ok(()),
            [first, rest @ ..] => self.read_record(heap, first, rest),
        }
    }

    fn read_record<'a>(
        &mut self,
        heap: Global,
        first: &'a str,
        rest: &[&'a str],
    ) -> Result<(), Wrong<'a>> {
        match first {
            "period" => self.terms.add_period(read_period(rest)?)?,
            "event" => self.events.add(read_event(rest)?)?,
            "lot" => self.read_lot(heap, rest)?,
            _ => {
                let kind = first.parse().map_err(|_| Wrong::NoLine(first))?;
                self.activities.add(read_activity(kind, rest)?)?;
            }
        }
        Ok(())
    }

    fn read_lot<'a>(&mut self, heap: Global, words: &[&'a str]) -> Result<(), Wrong<'a>> {
        let [class, parcels, steps @ ..] = words else {
            return Err(Wrong::Words("lot ordinary|express PARCELS STEP.."));
        };
        let class = read_class(class)?;
        let parcels = read_number(parcels)?;
        let steps = read_steps(heap, steps)?;
        self.lots.add_lot(class, parcels, steps.as_slice())?;
        Ok(())
    }
}
