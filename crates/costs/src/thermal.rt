// The thermal formulas: a lamination between two points of the heat curve, start and no-load.
ghost use Rattle.std.specs.Prelude.{◌≡◌, cond, ◌+◌, ◌-◌, ◌≤◌, eqb};
ghost use Rattle.station.specs.Parameters.{output, heat};
ghost use Rattle.lookup.specs.Parts.{Indexed, parameters_held, amounts_held};
ghost use Rattle.rules.specs.Curve.{points, rise};
ghost use Rattle.formulas.specs.Exact.{micro_dollars, cents};
ghost use Rattle.formulas.specs.Levels.{parameters_in, additions, thermal_energy, heat_cost, start_cost, no_load_cost};

use crate::maintenance::{adders, start_maintenance};
use arithmetic::Money;

// How many laminations lie between the points.
pub fn lamination_count(d: &[u8], index: &[u16]) -> usize
    requires { Indexed d.now index.now }
    ensures { (result ≡ points (parameters_in d.now) - 1) × (result ≤ 20) }
{
    parameters::points_of(d, index).saturating_sub(1)
}

// Where lamination i begins: the first at 0.
pub fn bottom(d: &[u8], index: &[u16], i: usize) -> u64
    requires { Indexed d.now index.now × (1 ≤ i) × (i ≤ 21) }
    ensures { result ≡ cond (eqb i 1) 0 (output (parameters_held d.now index.now) i) }
{
    if i == 1 {
        0
    } else {
        parameters::output(d, index, i)
    }
}

// The rise of heat in lamination i. It and the next stay two: all that they share is std's method.
fn heat_rise(d: &[u8], index: &[u16], i: usize) -> u64
    requires { Indexed d.now index.now × (1 ≤ i) × (i ≤ 20) }
    ensures { (result ≡ rise (heat (parameters_held d.now index.now)) i) × (result ≤ 20000000) }
{
    parameters::heat(d, index, i + 1).saturating_sub(parameters::heat(d, index, i))
}

// The rise of output in lamination i.
fn output_rise(d: &[u8], index: &[u16], i: usize) -> u64
    requires { Indexed d.now index.now × (1 ≤ i) × (i ≤ 20) }
    ensures { (result ≡ rise (output (parameters_held d.now index.now)) i) × (result ≤ 20000) }
{
    parameters::output(d, index, i + 1).saturating_sub(parameters::output(d, index, i))
}

// The level of lamination i in cents, given what AD and MM add.
pub fn lamination(d: &[u8], index: &[u16], p: usize, i: usize, more: u64) -> u64
    requires { Indexed d.now index.now × (1 ≤ p) × (p ≤ 4) × (1 ≤ i) × (i ≤ 20)
        × (more ≡ micro_dollars (additions (parameters_held d.now index.now) (amounts_held d.now index.now) p)) × (more ≤ 80015000000000000) }
    ensures { result ≡ cents (micro_dollars (thermal_energy (parameters_held d.now index.now)
        (amounts_held d.now index.now) p i)) }
{
    let heat = heat_rise(d, index, i);
    let output = output_rise(d, index, i);
    let fuel = parameters::fuel(d, index, p);
    let emission = parameters::emission(d, index, p);
    let factor = parameters::factor(d, index);
    let level = Money::from_sum(arithmetic::rise_cost(heat, output, fuel, emission, factor) + more);
    level.cents
}

// What a heat costs.
fn heat_sum(d: &[u8], index: &[u16], p: usize, heat: u64) -> u64
    requires { Indexed d.now index.now × (1 ≤ p) × (p ≤ 4) × (heat ≤ 20000000) }
    ensures { (result ≡ micro_dollars (heat_cost (parameters_held d.now index.now)
        (amounts_held d.now index.now) p heat)) × (result ≤ 24000000000000) }
{
    let fuel = parameters::fuel(d, index, p);
    let emission = parameters::emission(d, index, p);
    arithmetic::heat_cost(heat, fuel, emission, parameters::factor(d, index))
}

// A start.
pub fn start_cost(d: &[u8], index: &[u16], p: usize) -> u64
    requires { Indexed d.now index.now × (1 ≤ p) × (p ≤ 4) }
    ensures { result ≡ micro_dollars (start_cost (parameters_held d.now index.now)
        (amounts_held d.now index.now) p) }
{
    heat_sum(d, index, p, parameters::start_heat(d, index))
        + adders(d, index, p, 2)
        + start_maintenance(d, index, p)
}

// An hour without load.
pub fn no_load_cost(d: &[u8], index: &[u16], p: usize) -> u64
    requires { Indexed d.now index.now × (1 ≤ p) × (p ≤ 4) }
    ensures { result ≡ micro_dollars (no_load_cost (parameters_held d.now index.now)
        (amounts_held d.now index.now) p) }
{
    heat_sum(d, index, p, parameters::no_load_heat(d, index)) + adders(d, index, p, 3)
}
