// The conduct test, worked out through the index.
#![tactic(auto)]

mod refusals;

ghost use Rattle.std.specs.Prelude.{◌≡◌, ◌<◌, ◌≤◌, length};
ghost use Rattle.station.specs.Week.{WeekIn};
ghost use Rattle.records.specs.Answers.{Accepted};
ghost use Rattle.rules.specs.Answer.{answer};
ghost use Rattle.station.specs.InForce.{query};
ghost use Rattle.lookup.specs.Parts.{Indexed, parameters_held};
ghost use Rattle.formulas.specs.Levels.{IsOwner};
ghost use Rattle.reference.specs.Held.{lines_held};
ghost use Rattle.index.specs.Slots.{short, wide};
ghost use Rattle.limits.specs.Thresholds.{threshold_of};
ghost use Rattle.verdicts.specs.Verdict.{verdict_of, offer_verdict, price_verdict, on_offer, on_price};

use crate::refusals::{offer_refusal, price_refusal};
use limits::Threshold;
use lookup::Room;
use records::Refusal;
use verdicts::Verdict;

// What the TH of a condition and level says.
fn threshold_of(d: &[u8], index: &[u16], condition: usize, level: usize) -> Threshold
    requires { Indexed d.now index.now × (1 ≤ condition) × (condition ≤ 3) × (1 ≤ level) × (level ≤ 4) }
    ensures { result ≡ threshold_of (parameters_held d.now index.now) condition level }
{
    let percent = parameters::percent(d, index, condition, level);
    let margin = parameters::margin(d, index, condition, level);
    let floor = parameters::floor(d, index, condition, level);
    Threshold {
        percent,
        margin,
        floor,
    }
}

// The verdict on an energy offer, of an accepted dossier, or its refusal. The levels are worked out once none is drawn.
fn offer_verdict(
    d: &[u8],
    index: &[u16],
    sums: &[u64],
    p: usize,
    condition: u8,
    offer: &[u8],
) -> Result<Verdict, Refusal>
    requires { (answer d.now ≡ Accepted) × Indexed d.now index.now × (1 ≤ p) × (p ≤ 4) × (length sums.now ≡ 2) × WeekIn d.now sums.now }
    ensures { verdict_of result ≡ offer_verdict (parameters_held d.now index.now) condition
        (lines_held d.now index.now p) offer.now }
{
    let c = condition as usize;
    offer_refusal(d, index, c, offer)?;
    let mut from = [0u64; 20];
    let mut to = [0u64; 20];
    let mut cents = [0u64; 20];
    let lv = reference::profile_levels(d, index, sums, p, &mut from, &mut to, &mut cents);
    let t = threshold_of(d, index, c, 1);
    Ok(limits::rising_offer_test(&from, &to, &cents, lv.count, t, offer))
}

// The verdict on a single price, held plus 2^31, of an accepted dossier. Its level alone is worked out.
fn price_verdict(
    d: &[u8],
    index: &[u16],
    p: usize,
    level: u8,
    condition: u8,
    price: u64,
) -> Result<Verdict, Refusal>
    requires { Indexed d.now index.now × (1 ≤ p) × (p ≤ 4) × (price < 4294967296) }
    ensures { verdict_of result ≡ price_verdict (parameters_held d.now index.now) level condition
        (lines_held d.now index.now p) price }
{
    let c = condition as usize;
    price_refusal(d, index, level, c)?;
    let amount = reference::single_level(d, index, p, level);
    let t = threshold_of(d, index, c, level as usize);
    Ok(limits::single_test(amount, t, price))
}

// The conduct test of an energy offer, at an hour and under a condition, with an index of so many slots.
fn energy_test_in<const SLOTS: usize>(
    d: &[u8],
    hour: u32,
    owner: u8,
    condition: u8,
    offer: &[u8],
) -> Result<Verdict, Refusal>
    requires { (short ≤ SLOTS) × (SLOTS ≤ wide) × IsOwner owner }
    ensures { verdict_of result ≡ on_offer d.now (query hour owner) condition offer.now }
{
    let mut index = [0u16; SLOTS];
    let mut sums = [0u64; 2];
    let profile = query::judge_at(d, hour, owner, &mut index, &mut sums)?;
    offer_verdict(d, &index, &sums, profile, condition, offer)
}

// The same with an index as long as the dossier is likely to want.
fn energy_tested(
    d: &[u8],
    hour: u32,
    owner: u8,
    condition: u8,
    offer: &[u8],
) -> Result<Verdict, Refusal>
    ensures { verdict_of result ≡ on_offer d.now (query hour owner) condition offer.now }
{
    match query::way_in(d, owner)? {
        Room::Short => energy_test_in::<{ index::SHORT }>(d, hour, owner, condition, offer),
        Room::Narrow => energy_test_in::<{ index::NARROW }>(d, hour, owner, condition, offer),
        Room::Wide => energy_test_in::<{ index::WIDE }>(d, hour, owner, condition, offer),
    }
}

// The same of a dossier, a refusal told as a verdict.
pub fn energy_test(d: &[u8], hour: u32, owner: u8, condition: u8, offer: &[u8]) -> Verdict
    ensures { result ≡ on_offer d.now (query hour owner) condition offer.now }
{
    energy_tested(d, hour, owner, condition, offer).unwrap_or_else(Verdict::from)
}

// The conduct test of a single price in cents, for a level other than energy, with an index of so many slots.
fn price_test_in<const SLOTS: usize>(
    d: &[u8],
    hour: u32,
    owner: u8,
    level: u8,
    condition: u8,
    price: i32,
) -> Result<Verdict, Refusal>
    requires { (short ≤ SLOTS) × (SLOTS ≤ wide) × IsOwner owner }
    ensures { verdict_of result ≡ on_price d.now (query hour owner) level condition price }
{
    let mut index = [0u16; SLOTS];
    let mut sums = [0u64; 2];
    let profile = query::judge_at(d, hour, owner, &mut index, &mut sums)?;
    price_verdict(d, &index, profile, level, condition, limits::biased(price))
}

// The same with an index as long as the dossier is likely to want.
fn price_tested(
    d: &[u8],
    hour: u32,
    owner: u8,
    level: u8,
    condition: u8,
    price: i32,
) -> Result<Verdict, Refusal>
    ensures { verdict_of result ≡ on_price d.now (query hour owner) level condition price }
{
    match query::way_in(d, owner)? {
        Room::Short => price_test_in::<{ index::SHORT }>(d, hour, owner, level, condition, price),
        Room::Narrow => price_test_in::<{ index::NARROW }>(d, hour, owner, level, condition, price),
        Room::Wide => price_test_in::<{ index::WIDE }>(d, hour, owner, level, condition, price),
    }
}

// The same of a dossier, a refusal told as a verdict.
pub fn price_test(d: &[u8], hour: u32, owner: u8, level: u8, condition: u8, price: i32) -> Verdict
    ensures { result ≡ on_price d.now (query hour owner) level condition price }
{
    price_tested(d, hour, owner, level, condition, price).unwrap_or_else(Verdict::from)
}
