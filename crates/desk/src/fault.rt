//! Why the desk has no answer.
ghost use Rattle.std.specs.Prelude.{◌≡◌};
ghost use Rattle.desk.specs.declared.fault.DeskFault.TheVariants.{Refused, Unseen, Memory};

use outlook::answer::OutlookFault;
use sheet_read::fault::SheetFault;
use std::alloc::AllocError;
use std::fmt;

/// Why there is no listing, no sheet or no outlook.
#[derive(Drop)]
pub enum DeskFault {
    /// The bytes are no sheet.
    Refused(SheetFault),
    /// A line of the listing cannot be read, as this text says.
    Line(String),
    /// A report is none of the sheet's.
    Unseen(OutlookFault),
    Memory,
}

impl From<SheetFault> for DeskFault {
    ghost from_gives = { λ x y. y ≡ Refused x };

    fn from(fault: SheetFault) -> DeskFault {
        DeskFault::Refused(fault)
    }
}

impl From<OutlookFault> for DeskFault {
    ghost from_gives = { λ x y. y ≡ Unseen x };

    fn from(fault: OutlookFault) -> DeskFault {
        DeskFault::Unseen(fault)
    }
}

impl From<AllocError> for DeskFault {
    ghost from_gives = { λ _ y. y ≡ Memory };

    fn from(_error: AllocError) -> DeskFault {
        DeskFault::Memory
    }
}

impl From<fmt::Error> for DeskFault {
    ghost from_gives = { λ _ y. y ≡ Memory };

    fn from(_error: fmt::Error) -> DeskFault {
        DeskFault::Memory
    }
}
