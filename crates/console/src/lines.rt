//! The lines of an input, and what each says.
ghost use Rattle.std.specs.Prelude.{◌≡◌, ◌≢◌, Ok, IsUtf8, slice_index};
ghost use Rattle.console.specs.declared.lines.Said.TheVariants.{Nothing, NoCall};
ghost use Rattle.console.specs.Words.{said_of};

use crate::asked::{Asked, read_call};
use std::alloc::{AllocError, Global};
use std::io;
use std::io::BufRead;

/// The lines of an input, counted from 1.
#[derive(Drop)]
pub(crate) struct Lines<L> {
    heap: Global,
    input: L,
    count: u64,
}

impl<L: BufRead> Lines<L> {
    pub(crate) fn new(heap: Global, input: L) -> Lines<L> {
        Lines {
            heap,
            input,
            count: 0,
        }
    }

    /// The bytes of the next line, or none at the end of the input.
    pub(crate) fn next_line(&mut self) -> io::Result<Option<Vec<u8>>> {
        let mut line = Vec::new(self.heap);
        if self.input.read_until(b'\n', &mut line)? == 0 {
            return Ok(None);
        }
        self.count = self.count.saturating_add(1);
        Ok(Some(line))
    }

    /// The number of the line that was read last.
    pub(crate) fn number(&self) -> u64
        ensures { result ≡ self.now.count }
    {
        self.count
    }
}

/// What a line says.
// three cases, none of them a failure: a blank line is passed over, and the console answers one that is no call
#[derive(Clone, Copy, Debug, PartialEq, Eq, Hash)]
pub enum Said {
    /// The line is blank, or begins with `#`.
    Nothing,
    Call(Asked),
    NoCall,
}

/// What a line's words say.
pub fn read_words(words: &[&str]) -> Said
    ensures { result ≡ said_of words.now }
{
    match words {
        [] => Said::Nothing,
        [first, rest @ ..] => read_call(first, rest).map_or(Said::NoCall, Said::Call),
    }
}

/// What a line says; one that is no text is no call.
pub fn read_line(heap: Global, line: &[u8]) -> Result<Said, AllocError>
    ensures remark { slice_index line.now 0 ≡ 35 → result ≡ Ok Nothing }
    ensures no_text { slice_index line.now 0 ≢ 35 → (IsUtf8 line.now → ⊥) → result ≡ Ok NoCall }
{
    if line.starts_with(b"#") {
        return Ok(Said::Nothing);
    }
    let Ok(text) = std::str::from_utf8(line) else {
        return Ok(Said::NoCall);
    };
    let words: Vec<&str> = text.split_whitespace().collect(heap)?;
    Ok(read_words(words.as_slice()))
}
