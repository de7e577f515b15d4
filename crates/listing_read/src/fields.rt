//! The words of a listing's lines: numbers, sides, kinds and classes.
ghost use Rattle.std.specs.Prelude.{◌≡◌, IfErr};
ghost use Rattle.std.specs.Result.{result_ok};
ghost use Rattle.listing_read.specs.declared.fault.Wrong.TheVariants.{NoNumber, NoSide, NoClass};
ghost use Rattle.listing_read.specs.Words.{number_of, side_of, class_of, period_of, event_of, activity_of};

use crate::fault::Wrong;
use sheet::records::{Activity, Class, Event, Kind, Side};
use std::alloc::Global;
use words::number::number;

/// A decimal of at most 65,535.
pub(crate) fn read_number(word: &str) -> Result<u16, Wrong<'_>>
    ensures answer { result_ok result ≡ number_of word.now }
    ensures wrong { IfErr result (λ e. e ≡ NoNumber word.entry) }
{
    number(word).ok_or(Wrong::NoNumber(word))
}

pub(crate) fn read_side(word: &str) -> Result<Side, Wrong<'_>>
    ensures answer { result_ok result ≡ side_of word.now }
    ensures wrong { IfErr result (λ e. e ≡ NoSide word.entry) }
{
    word.parse().map_err(|_| Wrong::NoSide(word))
}

pub(crate) fn read_class(word: &str) -> Result<Class, Wrong<'_>>
    ensures answer { result_ok result ≡ class_of word.now }
    ensures wrong { IfErr result (λ e. e ≡ NoClass word.entry) }
{
    word.parse().map_err(|_| Wrong::NoClass(word))
}

/// The period of the words after `period`.
pub(crate) fn read_period<'a>(words: &[&'a str]) -> Result<u16, Wrong<'a>>
    ensures { result_ok result ≡ period_of words.now }
{
    let [period] = words else {
        return Err(Wrong::Words("period MINUTES"));
    };
    read_number(period)
}

/// The event of the words after `event`.
pub(crate) fn read_event<'a>(words: &[&'a str]) -> Result<Event, Wrong<'a>>
    ensures { result_ok result ≡ event_of words.now }
{
    let [truck, site, side, tolerance] = words else {
        return Err(Wrong::Words("event TRUCK SITE arrival|departure TOLERANCE"));
    };
    Ok(Event {
        truck: read_number(truck)?,
        site: read_number(site)?,
        side: read_side(side)?,
        tolerance: read_number(tolerance)?,
    })
}

/// The activity of a kind and the words after it.
pub(crate) fn read_activity<'a>(kind: Kind, words: &[&'a str]) -> Result<Activity, Wrong<'a>>
    ensures { result_ok result ≡ activity_of kind words.now }
{
    let [tail, head, margin] = words else {
        return Err(Wrong::Words("drive|stand|transfer TAIL HEAD MARGIN"));
    };
    Ok(Activity {
        kind,
        tail: read_number(tail)?,
        head: read_number(head)?,
        margin: read_number(margin)?,
    })
}

/// The steps at the end of a lot's line.
pub(crate) fn read_steps<'a>(heap: Global, words: &[&'a str]) -> Result<Vec<u16>, Wrong<'a>> {
    words.iter().map(|word| read_number(word)).try_collect(heap)
}
