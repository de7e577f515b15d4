//! Closing a board.
ghost use Rattle.std.specs.Prelude.{◌≡◌, vec_len};

use crate::board::Board;
use crate::slip::Slip;

impl Board<'_> {
    /// Takes the board out of use with the slips that are still out, and answers how many they are. While a board is in use a slip can only go
    /// to `release`.
    pub fn close(self, slips: Vec<Slip>) -> usize
        ensures { result ≡ vec_len slips }
    {
        let count = slips.len();
        let mut slips = slips;
        // one by one: a slip cannot be let go with the list that holds it
        while let Some(slip) = slips.pop() {
            let Slip {
                board: _,
                activity: _,
            } = slip;
        }
        slips.destroy_empty();
        count
    }
}
