// The levels at an hour as code hands them over: laminations in arrays, the other levels as numbers. How lines are packed into them is in
// specs/, its laws in proofs/.
#![tactic(auto)]

// The levels at an hour: up to 20 laminations with from and to in 0.1 MW and their level, and the other levels where the
// technology holds them, 0 where it doesn't; all levels in cents. No copy of its half a kilobyte is made unasked, so it isn't Copy.
#[derive(Drop)]
pub struct HourLevels {
    pub technology: u8,
    pub profile: usize,
    pub count: usize,
    pub from: [u64; 20],
    pub to: [u64; 20],
    pub cents: [u64; 20],
    pub start: u64,
    pub noload: u64,
    pub reserve: u64,
}

// What they are beside their laminations. Between layers the laminations are in lent arrays: handed on as values they would be copied at
// each step.
#[derive(Clone, Copy)]
pub struct SingleLevels {
    pub technology: u8,
    pub profile: usize,
    pub count: usize,
    pub start: u64,
    pub noload: u64,
    pub reserve: u64,
}
