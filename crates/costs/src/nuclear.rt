// The nuclear level.
ghost use Rattle.std.specs.Prelude.{◌≡◌, ◌≤◌};
ghost use Rattle.lookup.specs.Parts.{Indexed, parameters_held, amounts_held};
ghost use Rattle.formulas.specs.Exact.{micro_dollars};
ghost use Rattle.formulas.specs.Levels.{nuclear_energy};

use crate::maintenance::additions;

// The sum of its one lamination.
pub fn nuclear_energy(d: &[u8], index: &[u16], p: usize) -> u64
    requires { Indexed d.now index.now × (1 ≤ p) × (p ≤ 4) }
    ensures { result ≡ micro_dollars (nuclear_energy (parameters_held d.now index.now)
        (amounts_held d.now index.now) p) }
{
    let uranium = parameters::incremental_fuel(d, index);
    let fuel = parameters::fuel(d, index, p);
    let factor = parameters::factor(d, index);
    arithmetic::share(uranium * fuel * factor, 1000000000) + additions(d, index, p)
}
