// What the current records say, by the paper's names, read through the index; each with its highest value, on which the
// sums in 64 bits rest. The laws are in proofs/.
#![tactic(auto)]

ghost use Rattle.std.specs.Prelude.{◌≡◌, ◌≤◌, length, not, eqb, count_by};
ghost use Rattle.records.specs.Dossier.{records};
ghost use Rattle.station.specs.Parameters.{parameters, amounts, technology, capacity, factor, start_heat, no_load_heat, incremental_fuel, charge, efficiency};
ghost use Rattle.station.specs.Parameters.{window, output, heat, fuel, emission, adder, cost_c, output_w, interval_t, hours_per_start_s, first_hour, last_hour};
ghost use Rattle.station.specs.Parameters.{requested, percent, margin, floor, hour_price, place_price, last_cost, own_adder};
ghost use Rattle.index.specs.Slots.{narrow};
ghost use Rattle.lookup.specs.Parts.{Indexed, Complete, parameters_held, amounts_held};
ghost use Rattle.rules.specs.Curve.{points, full_hours};

pub fn technology(d: &[u8], index: &[u16]) -> u8
    requires { Indexed d.now index.now }
    ensures { (result ≡ technology (parameters_held d.now index.now)) × (result ≤ 4) }
{
    fields::u8_at(lookup::rs(d, index), 6)
}

pub fn capacity(d: &[u8], index: &[u16]) -> u64
    requires { Indexed d.now index.now }
    ensures { (result ≡ capacity (parameters_held d.now index.now)) × (result ≤ 20000) }
{
    fields::u16_at(lookup::rs(d, index), 7) as u64
}

pub fn factor(d: &[u8], index: &[u16]) -> u64
    requires { Indexed d.now index.now }
    ensures { (result ≡ factor (parameters_held d.now index.now)) × (result ≤ 2000) }
{
    fields::u16_at(lookup::rs(d, index), 9) as u64
}

pub fn start_heat(d: &[u8], index: &[u16]) -> u64
    requires { Indexed d.now index.now }
    ensures { (result ≡ start_heat (parameters_held d.now index.now)) × (result ≤ 20000000) }
{
    fields::u32_at(lookup::rs(d, index), 11) as u64
}

pub fn no_load_heat(d: &[u8], index: &[u16]) -> u64
    requires { Indexed d.now index.now }
    ensures { (result ≡ no_load_heat (parameters_held d.now index.now)) × (result ≤ 20000000) }
{
    fields::u32_at(lookup::rs(d, index), 15) as u64
}

pub fn incremental_fuel(d: &[u8], index: &[u16]) -> u64
    requires { Indexed d.now index.now }
    ensures { (result ≡ incremental_fuel (parameters_held d.now index.now)) × (result ≤ 1000000) }
{
    fields::u32_at(lookup::rs(d, index), 19) as u64
}

pub fn charge(d: &[u8], index: &[u16]) -> u64
    requires { Indexed d.now index.now }
    ensures { (result ≡ charge (parameters_held d.now index.now)) × (result ≤ 1000000) }
{
    fields::u32_at(lookup::rs(d, index), 23) as u64
}

pub fn efficiency(d: &[u8], index: &[u16]) -> u64
    requires { Indexed d.now index.now }
    ensures { (result ≡ efficiency (parameters_held d.now index.now)) × (result ≤ 1000) }
{
    fields::u16_at(lookup::rs(d, index), 27) as u64
}

pub fn window(d: &[u8], index: &[u16]) -> usize
    requires { Indexed d.now index.now }
    ensures { (result ≡ window (parameters_held d.now index.now)) × (result ≤ 4000) }
{
    fields::u16_at(lookup::rs(d, index), 29) as usize
}

// X: the hours that the charge lasts at capacity, without fraction.
pub fn full_hours(d: &[u8], index: &[u16]) -> u64
    requires { Indexed d.now index.now }
    ensures { result ≡ full_hours (parameters_held d.now index.now) }
{
    charge(d, index)
        .checked_div(capacity(d, index))
        .unwrap_or(0)
}

pub fn output(d: &[u8], index: &[u16], i: usize) -> u64
    requires { Indexed d.now index.now × (1 ≤ i) × (i ≤ 21) }
    ensures { (result ≡ output (parameters_held d.now index.now) i) × (result ≤ 20000) }
{
    fields::u16_at(lookup::hp(d, index, i), 7) as u64
}

pub fn heat(d: &[u8], index: &[u16], i: usize) -> u64
    requires { Indexed d.now index.now × (1 ≤ i) × (i ≤ 21) }
    ensures { (result ≡ heat (parameters_held d.now index.now) i) × (result ≤ 20000000) }
{
    fields::u32_at(lookup::hp(d, index, i), 9) as u64
}

// How many of some slots hold a record, counted in two bytes, so that the compiler does several at a time.
fn full_slots(slots: &[u16]) -> u16
    requires { length slots.now ≤ 21 }
    ensures { result ≡ count_by (λ v. not (eqb v 0)) slots.now }
{
    slots.iter().map(|&v| (v != 0) as u16).sum()
}

// How many points there are: the slots of HP that are not empty.
pub fn points_of(d: &[u8], index: &[u16]) -> usize
    requires { Indexed d.now index.now }
    ensures { (result ≡ points (parameters (records d.now))) × (result ≤ 21) }
{
    let first = index::keys::slot_hp(1);
    full_slots(&index[first..first + 21]) as usize
}

pub fn fuel(d: &[u8], index: &[u16], p: usize) -> u64
    requires { Indexed d.now index.now × (1 ≤ p) × (p ≤ 4) }
    ensures { (result ≡ fuel (amounts_held d.now index.now) p) × (result ≤ 400000000) }
{
    fields::u32_at(lookup::fu(d, index, p), 7) as u64
}

pub fn emission(d: &[u8], index: &[u16], p: usize) -> u64
    requires { Indexed d.now index.now × (1 ≤ p) × (p ≤ 4) }
    ensures { (result ≡ emission (amounts_held d.now index.now) p) × (result ≤ 400000000) }
{
    fields::u32_at(lookup::fu(d, index, p), 11) as u64
}

pub fn adder(d: &[u8], index: &[u16], p: usize, c: usize, v: usize) -> u64
    requires { Indexed d.now index.now × (1 ≤ p) × (p ≤ 4) × (1 ≤ c) × (c ≤ 5) × (1 ≤ v) × (v ≤ 4) }
    ensures { (result ≡ adder (amounts_held d.now index.now) p c v) × (result ≤ 1000000000000) }
{
    fields::u64_at(lookup::ad(d, index, p, c, v), 9)
}

pub fn own_adder(d: &[u8], index: &[u16], o: usize, p: usize, c: usize, v: usize) -> u64
    requires { Indexed d.now index.now × (1 ≤ o) × (o ≤ 2) × (1 ≤ p) × (p ≤ 4) × (1 ≤ c) × (c ≤ 5) × (1 ≤ v) × (v ≤ 4) }
    ensures { (result ≡ own_adder (amounts_held d.now index.now) o p c v) × (result ≤ 1000000000000) }
{
    fields::u64_at(lookup::ao(d, index, o, p, c, v), 10)
}

pub fn item_cost(d: &[u8], index: &[u16], p: usize, j: usize) -> u64
    requires { Indexed d.now index.now × (1 ≤ p) × (p ≤ 4) × (1 ≤ j) × (j ≤ 8) }
    ensures { (result ≡ cost_c (amounts_held d.now index.now) p j) × (result ≤ 100000000000) }
{
    fields::u64_at(lookup::mm(d, index, p, j), 8)
}

pub fn item_output(d: &[u8], index: &[u16], p: usize, j: usize) -> u64
    requires { Indexed d.now index.now × (1 ≤ p) × (p ≤ 4) × (1 ≤ j) × (j ≤ 8) }
    ensures { (result ≡ output_w (parameters_held d.now index.now) p j) × (result ≤ 20000) }
{
    fields::u16_at(lookup::mm(d, index, p, j), 16) as u64
}

pub fn item_interval(d: &[u8], index: &[u16], p: usize, j: usize) -> u64
    requires { Indexed d.now index.now × (1 ≤ p) × (p ≤ 4) × (1 ≤ j) × (j ≤ 8) }
    ensures { (result ≡ interval_t (parameters_held d.now index.now) p j) × (result ≤ 1000000) }
{
    fields::u32_at(lookup::mm(d, index, p, j), 18) as u64
}

pub fn item_hours(d: &[u8], index: &[u16], p: usize, j: usize) -> u64
    requires { Indexed d.now index.now × (1 ≤ p) × (p ≤ 4) × (1 ≤ j) × (j ≤ 8) }
    ensures { (result ≡ hours_per_start_s (parameters_held d.now index.now) p j) × (result ≤ 10000) }
{
    fields::u16_at(lookup::mm(d, index, p, j), 22) as u64
}

pub fn first_hour(d: &[u8], index: &[u16], n: usize) -> u32
    requires { Indexed d.now index.now × (1 ≤ n) × (n ≤ 16) }
    ensures { result ≡ first_hour (parameters (records d.now)) n }
{
    fields::u32_at(lookup::rq(d, index, n), 7)
}

pub fn last_hour(d: &[u8], index: &[u16], n: usize) -> u32
    requires { Indexed d.now index.now × (1 ≤ n) × (n ≤ 16) }
    ensures { result ≡ last_hour (parameters (records d.now)) n }
{
    fields::u32_at(lookup::rq(d, index, n), 11)
}

pub fn requested(d: &[u8], index: &[u16], n: usize) -> usize
    requires { Indexed d.now index.now × (1 ≤ n) × (n ≤ 16) }
    ensures { (result ≡ requested (parameters (records d.now)) n) × (result ≤ 4) }
{
    fields::u8_at(lookup::rq(d, index, n), 15) as usize
}

pub fn percent(d: &[u8], index: &[u16], c: usize, v: usize) -> u16
    requires { Indexed d.now index.now × (1 ≤ c) × (c ≤ 3) × (1 ≤ v) × (v ≤ 4) }
    ensures { result ≡ percent (parameters (records d.now)) c v }
{
    fields::u16_at(lookup::th(d, index, c, v), 8)
}

pub fn margin(d: &[u8], index: &[u16], c: usize, v: usize) -> u32
    requires { Indexed d.now index.now × (1 ≤ c) × (c ≤ 3) × (1 ≤ v) × (v ≤ 4) }
    ensures { result ≡ margin (parameters (records d.now)) c v }
{
    fields::u32_at(lookup::th(d, index, c, v), 10)
}

pub fn floor(d: &[u8], index: &[u16], c: usize, v: usize) -> u32
    requires { Indexed d.now index.now × (1 ≤ c) × (c ≤ 3) × (1 ≤ v) × (v ≤ 4) }
    ensures { result ≡ floor (parameters (records d.now)) c v }
{
    fields::u32_at(lookup::th(d, index, c, v), 14)
}

pub fn last_cost(d: &[u8], index: &[u16]) -> u64
    requires { Indexed d.now index.now × (narrow ≤ length index.now) }
    ensures { (result ≡ last_cost (amounts (records d.now))) × (result ≤ 2000000000) }
{
    fields::u32_at(lookup::lc(d, index), 6) as u64
}

// Plus 2^31, as prices are held.
pub fn hour_price(d: &[u8], index: &[u16], n: usize) -> u32
    requires { Indexed d.now index.now × (1 ≤ n) × (n ≤ 168) }
    ensures { result ≡ hour_price (amounts_held d.now index.now) n }
{
    fields::biased(fields::u32_at(lookup::hr(d, index, n), 7))
}

pub fn place_price(d: &[u8], index: &[u16], n: usize) -> u32
    requires { Indexed d.now index.now × Complete d.now index.now × (1 ≤ n) × (n ≤ 4000) }
    ensures { result ≡ place_price (amounts (records d.now)) n }
{
    fields::biased(fields::u32_at(lookup::fp(d, index, n), 8))
}
