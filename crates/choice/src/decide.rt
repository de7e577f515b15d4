//! Which transfers would go, each by its bills, and which wait after all because their tail is on time.
ghost use Rattle.std.specs.Prelude.{◌≡◌, ℕ, ◌<◌, ◌≤◌, length, if◌then◌else◌, slice_index};
ghost use Rattle.model.specs.Lateness.{binds};
ghost use Rattle.timetable.specs.Days.{yard_of};
ghost use Rattle.choice.specs.Chosen.{byte, cheap, unless_cheap, on_time};

use bills::charges::miss_bill;
use bills::event_bill::bill_cell;
use bills::priced::Priced;
use carry::rule::Carry;
use tariff::charges::Tariff;
use timetable::day::Day;
use timetable::day::stance::Stance;

/// The byte of an activity that waits, or goes.
fn byte_of(waits: bool) -> u8
    ensures { result ≡ byte waits }
{
    u8::from(!waits)
}

/// Whether missing transfer `a` costs no more than its head's bill.
fn is_cheap<R: Carry, T: Tariff>(priced: &Priced<'_, R, T>, a: usize) -> bool
    requires { a < length priced.now.forecast.now.day.sheet.activities.now }
    ensures { result ≡ cheap (T.prices priced.now.tariff.now) (yard_of (R.hands priced.now.forecast.now.rule.now) priced.now.forecast.now.day) a }
{
    let tariff = priced.tariff;
    let day = &priced.forecast.day;
    let wait = bill_cell(priced.bills, usize::from(day.sheet.activities[a].head));
    tariff.at_most(miss_bill(tariff, day, a), wait)
}

/// Whether activity `a` waits whether or not its tail is late.
fn would_wait<R: Carry, T: Tariff>(priced: &Priced<'_, R, T>, a: usize) -> bool
    requires { a < length priced.now.forecast.now.day.sheet.activities.now }
    ensures { result ≡ binds (yard_of (R.hands priced.now.forecast.now.rule.now) priced.now.forecast.now.day) (unless_cheap (T.prices priced.now.tariff.now) (yard_of (R.hands priced.now.forecast.now.rule.now) priced.now.forecast.now.day)) a }
{
    match priced.forecast.day.stance(a) {
        Stance::Bound => true,
        Stance::Gone => false,
        Stance::Open => !(priced.forecast.is_live(a) && is_cheap(priced, a)),
    }
}

/// Writes a byte for each activity: 1 where it is struck, or would go by its bills if its tail were late.
pub fn write_cheap<R: Carry, T: Tariff>(priced: &Priced<'_, R, T>, gone: &mut [u8])
    requires { length priced.now.forecast.now.day.sheet.activities.now ≤ length gone.old }
    ensures cells { (a : ℕ) → a < length priced.now.forecast.now.day.sheet.activities.now → slice_index gone.new a ≡ byte (binds (yard_of (R.hands priced.now.forecast.now.rule.now) priced.now.forecast.now.day) (unless_cheap (T.prices priced.now.tariff.now) (yard_of (R.hands priced.now.forecast.now.rule.now) priced.now.forecast.now.day)) a) }
    ensures kept { (a : ℕ) → length priced.now.forecast.now.day.sheet.activities.now ≤ a → slice_index gone.new a ≡ slice_index gone.old a }
{
    let day = &priced.forecast.day;
    let count = day.sheet.activities.len();
    for (a, byte) in gone[..count].iter_mut().enumerate() {
        *byte = byte_of(would_wait(priced, a));
    }
}

/// Whether `a` is an unmarked transfer whose tail is on time.
fn is_on_time(day: &Day, late: &[u16], a: usize) -> bool
    requires within { a < length day.now.sheet.activities.now }
    requires room { length day.now.sheet.events.now ≤ length late.now }
    ensures { (rule : ℕ → ℕ → ℕ) → result ≡ on_time (yard_of rule day.now) late.now a }
{
    let tail = usize::from(day.sheet.activities[a].tail);
    match day.stance(a) {
        Stance::Open => late[tail] == 0,
        Stance::Bound | Stance::Gone => false,
    }
}

/// The byte of an activity, or 0 where it waits after all.
fn settled(waits: bool, byte: u8) -> u8
    ensures { result ≡ (if waits then 0 else byte) }
{
    if waits { 0 } else { byte }
}

/// Lets every unmarked transfer wait whose tail is on time by `late`; the other bytes stay.
pub fn keep_punctual(day: &Day, late: &[u16], gone: &mut [u8])
    requires late { length day.now.sheet.events.now ≤ length late.now }
    requires gone { length day.now.sheet.activities.now ≤ length gone.old }
    ensures cells { (rule : ℕ → ℕ → ℕ) (a : ℕ) → a < length day.now.sheet.activities.now → slice_index gone.new a ≡ (if on_time (yard_of rule day.now) late.now a then 0 else slice_index gone.old a) }
    ensures kept { (a : ℕ) → length day.now.sheet.activities.now ≤ a → slice_index gone.new a ≡ slice_index gone.old a }
{
    let activities = day.sheet.activities.len();
    for (a, byte) in gone[..activities].iter_mut().enumerate() {
        *byte = settled(is_on_time(day, late, a), *byte);
    }
}
