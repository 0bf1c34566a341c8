// The papers' formulas over plain numbers; each division goes to the nearest, half up.
#![tactic(auto)]

pub mod highest;

ghost use Rattle.std.specs.Prelude.{◌≡◌, ◌+◌, ◌*◌, ◌≤◌};
ghost use Rattle.formulas.specs.Exact.{quotient, cents};

// One number over another, to the nearest, half up; 0 where the divisor is 0. Twice the number might not fit, so the
// remainder decides.
pub fn share(n: u64, by: u64) -> u64
    ensures { (result ≡ quotient n by) × (result ≤ n) }
{
    if by == 0 {
        return 0;
    }
    let whole = n / by;
    let left = n % by;
    if by - left <= left { whole + 1 } else { whole }
}

// What a heat costs, in a start or without load.
pub fn heat_cost(heat: u64, fuel: u64, emission: u64, factor: u64) -> u64
    requires { (heat ≤ 20000000) × (fuel ≤ 400000000) × (emission ≤ 400000000) × (factor ≤ 2000) }
    ensures { (result ≡ quotient (heat * fuel * factor) 1000000 + quotient (heat * emission) 1000) × (result ≤ 24000000000000) }
{
    share(heat * fuel * factor, 1000000) + share(heat * emission, 1000)
}

// What a rise of heat costs over a rise of output.
pub fn rise_cost(heat: u64, output: u64, fuel: u64, emission: u64, factor: u64) -> u64
    requires { (heat ≤ 20000000) × (output ≤ 20000) × (fuel ≤ 400000000) × (emission ≤ 400000000) × (factor ≤ 2000) }
    ensures { (result ≡ quotient (heat * fuel * factor) (100000 * output) + quotient (heat * emission) (100 * output)) × (result ≤ 16008000000000000000) }
{
    share(heat * fuel * factor, 100000 * output) + share(heat * emission, 100 * output)
}

// An amount of money in whole cents.
#[derive(Clone, Copy, Debug, PartialEq, Eq, PartialOrd, Ord)]
pub struct Money {
    pub cents: u64,
}

impl Money {
    // Micro-dollars in a cent.
    pub const PER_CENT: u64 = 10000;

    // A finished sum of micro-dollars, rounded to cents, half up.
    pub fn from_sum(sum: u64) -> Self
        ensures { result.cents ≡ cents sum }
    {
        Self {
            cents: share(sum, Self::PER_CENT),
        }
    }
}
