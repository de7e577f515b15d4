//! What a line's words ask for.
ghost use Rattle.std.specs.Prelude.{◌≡◌};
ghost use Rattle.console.specs.Words.{asked_of};

use keeper::order::Order;
use words::number::number;

/// A call as a person asks for it: a release names the transfer, and the console finds the slip.
pub type Asked = Order<u16, ()>;

/// The call that a line's first word and the words after it ask for.
pub fn read_call(first: &str, words: &[&str]) -> Option<Asked>
    ensures { result ≡ asked_of first.now words.now }
{
    match (first, words) {
        ("report", [event, minutes]) => Some(Order::Report(number(event)?, number(minutes)?)),
        ("hold", [a]) => number(a).map(Order::Hold),
        ("release", [a]) => number(a).map(Order::Release),
        ("strike", [a]) => number(a).map(Order::Strike),
        ("clear", [a]) => number(a).map(Order::Clear),
        ("trial", [a]) => number(a).map(Order::Trial),
        ("plan", []) => Some(Order::Plan),
        ("reserve", []) => Some(Order::Reserve(())),
        _ => None,
    }
}
