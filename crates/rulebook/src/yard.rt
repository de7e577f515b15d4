//! A small yard with three lots, and what they pay when all fare alike, by three tariffs.
use makers::grace::Grace;
use sheet::records::{Activity, Class, Event, Kind, Lot, Side};
use sheet::sheet::Sheet;
use std::{fmt, io};
use sums::all_alike::{all_late, all_missed};
use tariff::charges::Tariff;
use tariff::parcel_minutes::ParcelMinutes;
use tariff::ranked::Ranked;

const EVENTS: [Event; 5] = [
    Event {
        truck: 1,
        site: 10,
        side: Side::Arrival,
        tolerance: 60,
    },
    Event {
        truck: 1,
        site: 10,
        side: Side::Departure,
        tolerance: 60,
    },
    Event {
        truck: 2,
        site: 10,
        side: Side::Departure,
        tolerance: 60,
    },
    Event {
        truck: 1,
        site: 20,
        side: Side::Arrival,
        tolerance: 5,
    },
    Event {
        truck: 2,
        site: 30,
        side: Side::Arrival,
        tolerance: 5,
    },
];

const ACTIVITIES: [Activity; 4] = [
    Activity {
        kind: Kind::Stand,
        tail: 0,
        head: 1,
        margin: 2,
    },
    Activity {
        kind: Kind::Transfer,
        tail: 0,
        head: 2,
        margin: 3,
    },
    Activity {
        kind: Kind::Drive,
        tail: 1,
        head: 3,
        margin: 0,
    },
    Activity {
        kind: Kind::Drive,
        tail: 2,
        head: 4,
        margin: 1,
    },
];

const LOTS: [Lot; 3] = [
    Lot {
        class: Class::Ordinary,
        parcels: 20,
        first: 0,
        count: 2,
    },
    Lot {
        class: Class::Ordinary,
        parcels: 5,
        first: 2,
        count: 2,
    },
    Lot {
        class: Class::Express,
        parcels: 40,
        first: 4,
        count: 1,
    },
];

const STEPS: [u16; 5] = [0, 2, 1, 3, 3];

/// The tolls under one tariff if every lot ended 10 minutes late, and if every lot missed a connection.
fn print_tolls<T: Tariff>(rt: &impl Print, name: &str, tariff: &T, yard: &Sheet) -> io::Result<()>
where
    T::Toll: fmt::Display,
{
    let late = all_late(tariff, yard, 10);
    let missed = all_missed(tariff, yard);
    println!(rt; "{name}: late {late}, missed {missed}")
}

/// The tolls of the yard under three tariffs.
pub fn print_sums(rt: &impl Print) -> io::Result<()> {
    let yard = Sheet::new(60, &EVENTS, &ACTIVITIES, &LOTS, &STEPS);
    print_tolls(rt, "parcel-minutes", &ParcelMinutes, &yard)?;
    print_tolls(rt, "ranked", &Ranked, &yard)?;
    print_tolls(rt, "grace", &Grace { free: 4 }, &yard)
}
