// The reference levels at an hour, in arrays.
#![tactic(auto)]

mod laminations;

ghost use Rattle.std.specs.Prelude.{◌≡◌, [], ◌∷◌, true, ◌≤◌, length, replicate};
ghost use Rattle.station.specs.Parameters.{technology, capacity};
ghost use Rattle.station.specs.Week.{WeekIn};
ghost use Rattle.station.specs.InForce.{query};
ghost use Rattle.lookup.specs.Parts.{Indexed, parameters_held, amounts_held};
ghost use Rattle.formulas.specs.Levels.{IsOwner};
ghost use Rattle.rules.specs.Fit.{holds};
ghost use Rattle.index.specs.Slots.{short, wide};
ghost use Rattle.records.specs.Answers.{Accepted};
ghost use Rattle.formulas.specs.Exact.{micro_dollars, cents as cents_of};
ghost use Rattle.rules.specs.Answer.{answer};
ghost use Rattle.arrays.specs.Packed.{padded, single_levels, hour_of, single_sum, amount_of};
ghost use Rattle.reference.specs.Held.{lines_held, packed_held};
ghost use Rattle.reference.specs.Answer.{levels_answer};

use arithmetic::Money;
use arrays::{HourLevels, SingleLevels};
use lookup::Room;
use records::Refusal;

// The levels of a dossier at an hour, or what it refuses.
pub type LevelsAnswer = Result<HourLevels, Refusal>;

// The levels of a technology with one lamination, from 0 to the capacity, given the sums of its energy and reserve.
fn one_lamination(
    d: &[u8],
    index: &[u16],
    technology: u8,
    p: usize,
    energy: u64,
    reserve: u64,
    to: &mut [u64],
    cents: &mut [u64],
) -> SingleLevels
    requires { Indexed d.now index.now × (to.old ≡ replicate 20 0) × (cents.old ≡ replicate 20 0) }
    ensures { (result ≡ single_levels technology p 1 0 0 (cents_of reserve))
        × (to.new ≡ padded 20 (capacity (parameters_held d.now index.now) ∷ []))
        × (cents.new ≡ padded 20 (cents_of energy ∷ [])) }
{
    let energy_level = Money::from_sum(energy);
    let reserve_level = Money::from_sum(reserve);
    to[0] = parameters::capacity(d, index);
    cents[0] = energy_level.cents;
    SingleLevels {
        technology,
        profile: p,
        count: 1,
        start: 0,
        noload: 0,
        reserve: reserve_level.cents,
    }
}

// The levels of a thermal station in a profile.
fn thermal_levels(
    d: &[u8],
    index: &[u16],
    p: usize,
    from: &mut [u64],
    to: &mut [u64],
    cents: &mut [u64],
) -> SingleLevels
    requires { Indexed d.now index.now × (1 ≤ p) × (p ≤ 4) × (technology (parameters_held d.now index.now) ≡ 1) × (from.old ≡ replicate 20 0)
        × (to.old ≡ replicate 20 0) × (cents.old ≡ replicate 20 0) }
    ensures { hour_of result from.new to.new cents.new ≡ packed_held d.now index.now p }
{
    let count = costs::thermal::lamination_count(d, index);
    laminations::laminations(d, index, p, count, from, to, cents);
    let start = Money::from_sum(costs::thermal::start_cost(d, index, p));
    let noload = Money::from_sum(costs::thermal::no_load_cost(d, index, p));
    let reserve = Money::from_sum(costs::maintenance::adders(d, index, p, 4));
    SingleLevels {
        technology: 1,
        profile: p,
        count,
        start: start.cents,
        noload: noload.cents,
        reserve: reserve.cents,
    }
}

// The levels of an accepted dossier in a profile, given the sums of its charging week; their laminations in empty arrays.
pub fn profile_levels(
    d: &[u8],
    index: &[u16],
    sums: &[u64],
    p: usize,
    from: &mut [u64],
    to: &mut [u64],
    cents: &mut [u64],
) -> SingleLevels
    requires { (answer d.now ≡ Accepted) × Indexed d.now index.now × (1 ≤ p) × (p ≤ 4) × (length sums.now ≡ 2) × WeekIn d.now sums.now
        × (from.old ≡ replicate 20 0) × (to.old ≡ replicate 20 0) × (cents.old ≡ replicate 20 0) }
    ensures { hour_of result from.new to.new cents.new ≡ packed_held d.now index.now p }
{
    let technology = parameters::technology(d, index);
    if technology == 1 {
        return thermal_levels(d, index, p, from, to, cents);
    }
    if technology == 2 {
        let energy = costs::nuclear::nuclear_energy(d, index, p);
        return one_lamination(d, index, 2, p, energy, 0, to, cents);
    }
    let reserve = costs::maintenance::adders(d, index, p, 4);
    if technology == 3 {
        let energy = costs::storage::storage_energy(d, index, sums, p);
        return one_lamination(d, index, 3, p, energy, reserve, to, cents);
    }
    let energy = costs::hydro::hydro_energy(d, index, p);
    one_lamination(d, index, 4, p, energy, reserve, to, cents)
}

// The sum of a level without laminations in a profile.
fn single_sum(d: &[u8], index: &[u16], p: usize, level: u8) -> u64
    requires { Indexed d.now index.now × (1 ≤ p) × (p ≤ 4) }
    ensures { result ≡ micro_dollars (single_sum (parameters_held d.now index.now)
        (amounts_held d.now index.now) p level) }
{
    if level == 2 {
        return costs::thermal::start_cost(d, index, p);
    }
    if level == 3 {
        return costs::thermal::no_load_cost(d, index, p);
    }
    costs::maintenance::adders(d, index, p, 4)
}

// A level without laminations in a profile, worked out by itself: the test of a single price needs no other.
pub fn single_level(d: &[u8], index: &[u16], p: usize, level: u8) -> u64
    requires { Indexed d.now index.now × (1 ≤ p) × (p ≤ 4) × (holds (technology (parameters_held d.now index.now)) level ≡ true)
        × (2 ≤ level) × (level ≤ 4) }
    ensures { result ≡ amount_of level (lines_held d.now index.now p) }
{
    let money = Money::from_sum(single_sum(d, index, p, level));
    money.cents
}

// The levels of an accepted dossier in a profile, with their laminations.
fn whole_levels(d: &[u8], index: &[u16], sums: &[u64], p: usize) -> HourLevels
    requires { (answer d.now ≡ Accepted) × Indexed d.now index.now × (1 ≤ p) × (p ≤ 4) × (length sums.now ≡ 2) × WeekIn d.now sums.now }
    ensures { result ≡ packed_held d.now index.now p }
{
    let mut from = [0u64; 20];
    let mut to = [0u64; 20];
    let mut cents = [0u64; 20];
    let lv = profile_levels(d, index, sums, p, &mut from, &mut to, &mut cents);
    HourLevels {
        technology: lv.technology,
        profile: lv.profile,
        count: lv.count,
        from,
        to,
        cents,
        start: lv.start,
        noload: lv.noload,
        reserve: lv.reserve,
    }
}

// The levels of a dossier at an hour, with an index of so many slots.
fn levels_in<const SLOTS: usize>(d: &[u8], hour: u32, owner: u8) -> LevelsAnswer
    requires { (short ≤ SLOTS) × (SLOTS ≤ wide) × IsOwner owner }
    ensures { result ≡ levels_answer d.now (query hour owner) }
{
    let mut index = [0u16; SLOTS];
    let mut sums = [0u64; 2];
    let profile = query::judge_at(d, hour, owner, &mut index, &mut sums)?;
    Ok(whole_levels(d, &index, &sums, profile))
}

// The levels of a dossier at an hour.
pub fn levels(d: &[u8], hour: u32, owner: u8) -> LevelsAnswer
    ensures { result ≡ levels_answer d.now (query hour owner) }
{
    match query::way_in(d, owner)? {
        Room::Short => levels_in::<{ index::SHORT }>(d, hour, owner),
        Room::Narrow => levels_in::<{ index::NARROW }>(d, hour, owner),
        Room::Wide => levels_in::<{ index::WIDE }>(d, hour, owner),
    }
}
