// The storage level: the greater of the short-run cost and the opportunity cost.
ghost use Rattle.std.specs.Prelude.{◌≡◌, ◌*◌, ◌-◌, ◌≤◌, length};
ghost use Rattle.station.specs.Parameters.{window, hour_price, last_cost};
ghost use Rattle.station.specs.Week.{WeekIn};
ghost use Rattle.lookup.specs.Parts.{Indexed, parameters_held, amounts_held};
ghost use Rattle.rules.specs.Curve.{full_hours};
ghost use Rattle.formulas.specs.Sums.{list_to, sum_highest};
ghost use Rattle.formulas.specs.Exact.{micro_dollars};
ghost use Rattle.formulas.specs.Levels.{parameters_in, amounts_in, charging_cost, short_run_cost, opportunity_cost, storage_energy};

use crate::fill::last_places;
use crate::maintenance::additions;

// The last charging cost. An index at hand without LC's slot is mostly one of a dossier without LC, whose cost is 0; else another is filled.
fn last_cost(d: &[u8], index: &[u16]) -> u64
    requires { Indexed d.now index.now }
    ensures { (result ≡ last_cost (amounts_in d.now)) × (result ≤ 2000000000) }
{
    if index::NARROW <= index.len() {
        return parameters::last_cost(d, index);
    }
    if lookup::fits_short(d) {
        return 0;
    }
    let mut full = [0u16; index::NARROW];
    lookup::fill(d, &mut full);
    parameters::last_cost(d, &full)
}

// The charging cost, from the sums of the week; where no energy was charged, the last one.
fn charging_cost(d: &[u8], index: &[u16], sums: &[u64]) -> u64
    requires { Indexed d.now index.now × (length sums.now ≡ 2) × WeekIn d.now sums.now }
    ensures { (result ≡ micro_dollars (charging_cost (parameters_in d.now) (amounts_in d.now))) × (result ≤ 2000000000) }
{
    let energy = sums[1];
    if energy == 0 {
        return last_cost(d, index);
    }
    let sum = sums[0].saturating_sub(2147483648 * energy);
    arithmetic::share(sum * 10000, energy)
}

// The short-run cost.
fn short_run_cost(d: &[u8], index: &[u16], sums: &[u64], p: usize) -> u64
    requires { Indexed d.now index.now × (length sums.now ≡ 2) × WeekIn d.now sums.now × (1 ≤ p) × (p ≤ 4) }
    ensures { result ≡ micro_dollars (short_run_cost (parameters_held d.now index.now)
        (amounts_held d.now index.now) p) }
{
    let charge = charging_cost(d, index, sums) + parameters::fuel(d, index, p);
    let efficiency = parameters::efficiency(d, index);
    arithmetic::share(charge * 1000, efficiency) + additions(d, index, p)
}

// The sum of the highest prices of the window.
fn highest_sum(d: &[u8], index: &[u16], hours: usize, window: usize) -> u64
    requires { Indexed d.now index.now × (window ≤ 168) × (hours ≤ window) }
    ensures { (result ≡ sum_highest hours (list_to window (hour_price (amounts_held d.now index.now)))) × (result ≤ 336 * 4294967295) }
{
    let mut table = [0u32; 168];
    last_places(&mut table, window, |n| parameters::hour_price(d, index, n));
    arithmetic::highest::highest(&table[168 - window..], hours)
}

// The opportunity cost.
fn opportunity_cost(d: &[u8], index: &[u16]) -> u64
    requires { Indexed d.now index.now × (full_hours (parameters_held d.now index.now) ≤ window (parameters_held d.now index.now))
        × (window (parameters_held d.now index.now) ≤ 168) }
    ensures { result ≡ micro_dollars (opportunity_cost (parameters_held d.now index.now)
        (amounts_held d.now index.now)) }
{
    let hours = parameters::full_hours(d, index);
    let window = parameters::window(d, index);
    let highest = highest_sum(d, index, hours as usize, window);
    let sum = highest.saturating_sub(2147483648 * hours);
    arithmetic::share(sum * 10000, hours)
}

// The greater is taken.
pub fn storage_energy(d: &[u8], index: &[u16], sums: &[u64], p: usize) -> u64
    requires { Indexed d.now index.now × (length sums.now ≡ 2) × WeekIn d.now sums.now × (1 ≤ p) × (p ≤ 4)
        × (full_hours (parameters_held d.now index.now) ≤ window (parameters_held d.now index.now))
        × (window (parameters_held d.now index.now) ≤ 168) }
    ensures { result ≡ micro_dollars (storage_energy (parameters_held d.now index.now)
        (amounts_held d.now index.now) p) }
{
    short_run_cost(d, index, sums, p).max(opportunity_cost(d, index))
}
