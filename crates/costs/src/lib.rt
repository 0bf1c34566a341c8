// The sums behind the levels, in micro-dollars, worked out through the index: adders and maintenance, and each technology's
// formulas. The definitions are in specs/, their laws in proofs/.
#![tactic(auto)]

mod fill;
pub mod hydro;
pub mod maintenance;
pub mod nuclear;
pub mod storage;
pub mod thermal;
