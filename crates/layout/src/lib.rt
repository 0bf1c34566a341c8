// The report's lines as bytes, 15 and 16, and what the program prints. The definitions are in specs/, their laws in proofs/.
#![tactic(auto)]

use records::Refusal;

// What a report gives its caller: how many bytes were written, or a refusal.
pub type Written = Result<usize, Refusal>;

// A buffer of so many bytes holds every report.
pub const LONGEST: usize = 2312;
