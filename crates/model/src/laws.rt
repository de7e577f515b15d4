//! The laws of the model, each the contract of a function: for every rule and tariff that keep their own laws.
ghost use Rattle.model.specs.Laws.{OneLeast, LawfulByDeduct, AChoice, NoRivalCheaper, TollByBills, LightBills, MinutesToll, WithinReserves, ReserveAlone, TanglesFound};
ghost use Rattle.model.specs.Examples.{HypothesesMet, YardSheetWorked, WorkedCases};

use carry::rule::Carry;
use carry::worked::worked_rules;
use tariff::charges::Tariff;

/// Each choice has exactly one least lawful lateness.
pub fn one_least<R: Carry>(rule: &R)
    ensures { OneLeast (R.Carry.hands rule.now) }
{}

/// Under deduct and parcel-minutes the model is the published one: lateness that keeps the margins, and a toll in parcel-minutes.
pub fn as_published()
    ensures lateness { LawfulByDeduct }
    ensures toll { MinutesToll }
{}

/// The choice by bills exists, no rival is cheaper, its toll is told by the bills, and no bill counts a lot twice.
pub fn cheapest_choice<R: Carry, T: Tariff>(rule: &R, tariff: &T)
    ensures choice { AChoice (R.Carry.hands rule.now) (T.Tariff.prices tariff.now) }
    ensures cheapest { NoRivalCheaper (R.Carry.hands rule.now) (T.Tariff.prices tariff.now) }
    ensures toll { TollByBills (R.Carry.hands rule.now) (T.Tariff.prices tariff.now) }
    ensures light { LightBills (R.Carry.hands rule.now) (T.Tariff.prices tariff.now) }
{}

/// A scan along a lot's way finds exactly the tangled ones.
pub fn tangles_found()
    ensures { TanglesFound }
{}

/// Events are within their tolerances exactly when the delays are within the reserves, all together and one by one.
pub fn reserves_hold<R: Carry>(rule: &R)
    ensures together { WithinReserves (R.Carry.hands rule.now) }
    ensures alone { ReserveAlone (R.Carry.hands rule.now) }
{}

/// A small yard with held, struck, live and dead transfers meets what the laws ask for; and the yard sheet as worked by hand.
pub fn examples()
    ensures met { HypothesesMet }
    ensures worked { YardSheetWorked }
{}

/// Every case that was worked by hand comes out so.
pub fn worked_cases()
    ensures { WorkedCases }
{
    worked_rules();
}
