//! `dock carry` and `dock remains`: print what a carry rule hands on, and what remains under it.
use crate::fault::DockFault;
use desk::minutes::{Argument, minutes};
use desk::rules::RuleName;

pub fn carry(
    rt: &HostRuntime,
    rule: String,
    margin: String,
    lateness: String,
) -> Result<(), DockFault> {
    tell(
        rt,
        rule,
        margin,
        lateness,
        Argument::Lateness,
        desk::rules::carry,
    )
}

pub fn remains(
    rt: &HostRuntime,
    rule: String,
    margin: String,
    allowance: String,
) -> Result<(), DockFault> {
    tell(
        rt,
        rule,
        margin,
        allowance,
        Argument::Allowance,
        desk::rules::remains,
    )
}

/// Prints what a rule answers for a margin and for other minutes.
fn tell<F: FnOnce(RuleName, u16, u16) -> Result<u16, Argument>>(
    rt: &HostRuntime,
    rule: String,
    margin: String,
    other: String,
    argument: Argument,
    answer: F,
) -> Result<(), DockFault>
    requires { F.IsAlwaysCallable answer }
{
    let rule = named(rule)?;
    let margin = minutes(margin.as_str(), Argument::Margin)?;
    let other = minutes(other.as_str(), argument)?;
    let told = answer(rule, margin, other)?;
    println!(rt; "{told}")?;
    Ok(())
}

/// The rule of this name, or the fault that names what was said.
pub fn named(name: String) -> Result<RuleName, DockFault> {
    name.parse().map_err(|_| DockFault::NoRule(name))
}
