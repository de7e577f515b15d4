//! Values told in a row.
ghost use Rattle.words.specs.Rows.{row_of};

use std::fmt;

/// Values one after another, a blank before each.
#[derive(Clone, Copy)]
pub struct Row<'a, T>(pub &'a [T]);

impl<T: fmt::Display> fmt::Display for Row<'_, T> {
    ghost output = { λ row. row_of T.output row.0.now };

    fn fmt<W: fmt::Write>(&self, f: &mut fmt::Formatter<W>) -> fmt::Result {
        for value in self.0 {
            write!(f, " {value}")?;
        }
        Ok(())
    }
}
