//! The rules reckoned another way: minute by minute, from what was handed on one minute before.

/// A lateness that grows by one minute at a time under one margin, and what is handed on of it.
pub trait Growing: Drop {
    /// No lateness yet, under the margin.
    fn new(margin: u16) -> Self;

    /// One minute more.
    fn pass_minute(&mut self);

    /// The minutes handed on so far.
    fn handed(&self) -> u16;
}

/// Each minute past the margin is handed on, up to `MOST` minutes.
#[derive(Drop, Debug)]
pub struct Deducted<const MOST: u16> {
    /// Minutes of the margin that are not used up.
    left: u16,
    handed: u16,
}

impl<const MOST: u16> Growing for Deducted<MOST> {
    fn new(margin: u16) -> Self {
        Deducted {
            left: margin,
            handed: 0,
        }
    }

    fn pass_minute(&mut self) {
        if self.left > 0 {
            self.left -= 1;
        } else if self.handed < MOST {
            self.handed += 1;
        }
    }

    fn handed(&self) -> u16 {
        self.handed
    }
}

/// The first minute past the margin brings on all minutes before it.
#[derive(Drop, Debug)]
pub struct Gated {
    /// Minutes of the margin that are not used up.
    left: u16,
    /// Minutes so far.
    lateness: u16,
    handed: u16,
}

impl Growing for Gated {
    fn new(margin: u16) -> Self {
        Gated {
            left: margin,
            lateness: 0,
            handed: 0,
        }
    }

    fn pass_minute(&mut self) {
        self.lateness = self.lateness.wrapping_add(1);
        if self.left > 0 {
            self.left -= 1;
        } else {
            self.handed = self.lateness;
        }
    }

    fn handed(&self) -> u16 {
        self.handed
    }
}

/// Each minute hands on its hundredths, once they make whole minutes.
#[derive(Drop, Debug)]
pub struct Shared {
    /// Hundredths of a minute handed on at each minute.
    rate: u16,
    /// Hundredths that do not make a whole minute yet.
    part: u16,
    handed: u16,
}

impl Growing for Shared {
    fn new(margin: u16) -> Self {
        let rate = 100u16.saturating_sub(margin);
        Shared {
            rate,
            part: 0,
            handed: 0,
        }
    }

    fn pass_minute(&mut self) {
        self.part = self.part.wrapping_add(self.rate);
        if self.part >= 100 {
            self.part -= 100;
            self.handed = self.handed.wrapping_add(1);
        }
    }

    fn handed(&self) -> u16 {
        self.handed
    }
}
