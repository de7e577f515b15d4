//! The carry rules by name: what a rule hands on, and what remains under it.
ghost use Rattle.std.specs.Prelude.{◌≡◌, IfOk};
ghost use Rattle.std.specs.Result.{result_ok, result_err};
ghost use Rattle.carry.specs.Laws.{Remains};
ghost use Rattle.desk.specs.declared.minutes.Argument.TheVariants.{Lateness, Allowance};
ghost use Rattle.desk.specs.Meanings.{rule_of, meaning, too_long};
ghost use Rattle.desk.specs.Lawful.{meaning_lawful};

use crate::minutes::{Argument, within_a_day};
use carry::deduct::Deduct;
use carry::gate::Gate;
use carry::rule::{Carry, Measured};
use carry::share::Share;
use std::str::FromStr;

/// The rules that a person can name; each is a rule itself, the one that it names.
#[derive(Clone, Copy, Debug, PartialEq, Eq, Hash)]
pub enum RuleName {
    Deduct,
    Gate,
    Share,
}

/// No rule has this name.
#[derive(Clone, Copy, Debug, PartialEq, Eq, Hash)]
pub struct NoSuchRule;

impl FromStr for RuleName {
    type Err = NoSuchRule;

    ghost from_str_gives = { λ name answer. result_ok answer ≡ rule_of name };

    fn from_str(name: &str) -> Result<RuleName, NoSuchRule> {
        match name {
            "deduct" => Ok(RuleName::Deduct),
            "gate" => Ok(RuleName::Gate),
            "share" => Ok(RuleName::Share),
            _ => Err(NoSuchRule),
        }
    }
}

impl Carry for RuleName {
    ghost hands = { meaning };

    ghost lawful = { meaning_lawful };

    fn carry(&self, margin: u16, lateness: u16) -> u16 {
        match self {
            RuleName::Deduct => Deduct.carry(margin, lateness),
            RuleName::Gate => Gate.carry(margin, lateness),
            RuleName::Share => Share.carry(margin, lateness),
        }
    }
}

impl Measured for RuleName {
    fn remains(&self, margin: u16, allowance: u16) -> u16 {
        match self {
            RuleName::Deduct => Deduct.remains(margin, allowance),
            RuleName::Gate => Gate.remains(margin, allowance),
            RuleName::Share => Share.remains(margin, allowance),
        }
    }
}

/// The lateness that the rule hands on, or the argument that is longer than a day.
pub fn carry(rule: RuleName, margin: u16, lateness: u16) -> Result<u16, Argument>
    ensures handed { IfOk result (λ handed. handed ≡ meaning rule margin lateness) }
    ensures refused { result_err result ≡ too_long margin Lateness lateness }
{
    within_a_day(margin, Argument::Lateness, lateness)?;
    Ok(rule.carry(margin, lateness))
}

/// The greatest lateness up to 1,440 of which the rule hands on at most the allowance, or the argument that is longer than a day.
pub fn remains(rule: RuleName, margin: u16, allowance: u16) -> Result<u16, Argument>
    ensures most { IfOk result (Remains (meaning rule) margin allowance) }
    ensures refused { result_err result ≡ too_long margin Allowance allowance }
{
    within_a_day(margin, Argument::Allowance, allowance)?;
    Ok(rule.remains(margin, allowance))
}
