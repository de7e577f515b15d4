//! A test program: every answer of each rule's two calls against an independent reckoning, then sums of charges.
#![tactic(auto)]

use carry::deduct::Deduct;
use carry::gate::Gate;
use carry::rule::{LONGEST, Measured};
use carry::share::Share;
use makers::relief::Relief;
use reckoner::{Deducted, Gated, Growing, Shared};
use std::io;
use tables::{try_carry, try_remains};
use yard::print_sums;

mod reckoner;
mod tables;
mod tally;
mod yard;

/// The most minutes that the relief rule hands on.
const MOST: u16 = 90;

/// What all answers of a rule's two calls come to beside a reckoning.
fn print_rule<G: Growing, R: Measured>(rt: &impl Print, name: &str, rule: &R) -> io::Result<()> {
    println!(rt; "{name} carry: {}", try_carry::<G, _>(rule))?;
    println!(rt; "{name} remains: {}", try_remains::<G, _>(rule))
}

fn main(rt: HostRuntime) -> io::Result<()> {
    print_rule::<Deducted<LONGEST>, _>(&rt, "deduct", &Deduct)?;
    print_rule::<Gated, _>(&rt, "gate", &Gate)?;
    print_rule::<Shared, _>(&rt, "share", &Share)?;
    print_rule::<Deducted<MOST>, _>(&rt, "relief", &Relief { most: MOST })?;
    print_rule::<Gated, _>(&rt, "deduct taken for gate,", &Deduct)?;
    print_sums(&rt)
}
