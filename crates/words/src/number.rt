//! Numbers as a person writes them.
ghost use Rattle.std.specs.Prelude.{◌≡◌};
ghost use Rattle.words.specs.Numbers.{number_of};

/// The number of a word, a decimal of at most 65,535; a plus sign before it, which Rust's `parse` takes, makes it none.
pub fn number(word: &str) -> Option<u16>
    ensures { result ≡ number_of word.now }
{
    if word.as_bytes().first() == Some(&b'+') {
        return None;
    }
    word.parse().ok()
}
