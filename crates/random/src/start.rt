// The table from which a list is reported (docs/RANDOM.md, "Reports"): zeros, or counts near the greatest, so that sums pass it.
use crate::dice::Dice;
use crate::{reported, text};
use report::Table;

// For a list that begins with the schedule of that number.
pub fn drawn(number: u32, dice: &mut Dice, room: &mut [u8; text::TOO_LONG]) -> Table {
    let mut table = [[0; 16]; 16];
    match dice.roll(4) {
        2 => near(&mut table, dice),
        3 => edge(&mut table, reported::alone(number, room), dice),
        _ => {}
    }
    table
}

// Each cell near the greatest count.
fn near(table: &mut Table, dice: &mut Dice) {
    for count in table.as_flattened_mut() {
        *count = u32::MAX - dice.roll(32) as u32;
    }
}

// One cell, that to which the list's first schedule adds most, of several the first: the sum is then just the greatest count, or
// passes it by one.
fn edge(table: &mut Table, charges: Table, dice: &mut Dice) {
    let charges = charges.as_flattened();
    let most = charges.iter().copied().max().unwrap_or(0);
    let over = if most == 0 { 0 } else { dice.roll(2) as u32 };
    let mut cells = table.as_flattened_mut().iter_mut().zip(charges);
    if let Some((count, _)) = cells.find(|(_, charge)| **charge == most) {
        *count = u32::MAX - most + over;
    }
}
