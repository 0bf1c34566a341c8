// The thermal laminations in arrays.
ghost use Rattle.std.specs.Prelude.{◌≡◌, [], map, ◌≤◌, replicate};
ghost use Rattle.lookup.specs.Parts.{Indexed, parameters_held, amounts_held};
ghost use Rattle.formulas.specs.Levels.{laminations, amount};
ghost use Rattle.arrays.specs.Packed.{padded};

use costs::maintenance::additions;
use costs::thermal::{bottom, lamination};

// The n laminations: from, to and level of each.
pub fn laminations(
    d: &[u8],
    index: &[u16],
    p: usize,
    n: usize,
    from: &mut [u64],
    to: &mut [u64],
    cents: &mut [u64],
)
    requires { Indexed d.now index.now × (1 ≤ p) × (p ≤ 4) × (n ≤ 20) × (from.old ≡ replicate 20 0) × (to.old ≡ replicate 20 0)
        × (cents.old ≡ replicate 20 0) }
    ensures { (from.new ≡ padded 20 (map (λ x. x.from)
        (laminations (parameters_held d.now index.now) (amounts_held d.now index.now) p 1 n [])))
        × (to.new ≡ padded 20 (map (λ x. x.to) (laminations (parameters_held d.now index.now)
        (amounts_held d.now index.now) p 1 n [])))
        × (cents.new ≡ padded 20 (map (λ x. amount x)
        (laminations (parameters_held d.now index.now) (amounts_held d.now index.now) p 1 n []))) }
{
    let more = additions(d, index, p);
    for i in 0..n {
        from[i] = bottom(d, index, i + 1);
        to[i] = parameters::output(d, index, i + 2);
        cents[i] = lamination(d, index, p, i + 1, more);
    }
}
