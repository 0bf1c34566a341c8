// A price and an offer against levels in arrays: the limit, the laminations that a pair overlaps. The shapes of the definitions that code
// takes are in specs/, their laws in proofs/.
#![tactic(auto)]

ghost use Rattle.std.specs.Prelude.{◌≡◌, ◌+◌, ◌*◌, ◌<◌, ◌≤◌, ◌/◌, length};
ghost use Rattle.fields.specs.Numbers.{number, biased_of};
ghost use Rattle.arrays.specs.Packed.{laminations_from, in_arrays};
ghost use Rattle.verdicts.specs.Test.{limit as limit_of, overlap, quantity, price_at};
ghost use Rattle.limits.specs.Thresholds.{fails_at, fails_in, first_failing, least_of, offer_shown, single_shown, LastHighest};

use verdicts::Verdict;

// What a TH says of a condition and level.
#[derive(Clone, Copy)]
pub struct Threshold {
    pub percent: u16,
    pub margin: u32,
    pub floor: u32,
}

// A pair of an offer: from where to where it reaches, in 0.1 MW, and its price, held plus 2^31.
#[derive(Clone, Copy)]
pub struct Pair {
    pub low: u64,
    pub high: u64,
    pub price: u64,
}

// A margin that means none.
const NO_MARGIN: u32 = 4294967295;

// What is added to a signed price, so that it is never negative.
const BIAS: u64 = 2147483648;

// A signed price in cents, held plus 2^31.
pub fn biased(price: i32) -> u64
    ensures { (result ≡ biased_of price) × (result < 4294967296) }
{
    ((price as i64) + 2147483648) as u64
}

// The limit of a level that fits 32 bits.
fn limit(level: u64, percent: u16, margin: u32) -> u64
    requires { level < 4294967296 }
    ensures { result ≡ limit_of level percent margin }
{
    let by_percent = level + level * (percent as u64) / 100;
    let by_margin = level + (margin as u64);
    if margin == NO_MARGIN {
        by_percent
    } else {
        by_percent.min(by_margin)
    }
}

// Whether a price fails against a level. No limit is below its level, so a price that isn't above the level passes; the
// limit is only worked out of a level below a price, where nothing overflows.
fn fails(level: u64, t: Threshold, price: u64) -> bool
    requires { price < 4294967296 }
    ensures { result ≡ fails_at t price level }
{
    if price < BIAS {
        return false;
    }
    let cents = price - BIAS;
    if cents <= level {
        return false;
    }
    ((t.floor as u64) <= cents) & (limit(level, t.percent, t.margin) < cents)
}

// Whether a pair and a lamination overlap by more than a point.
fn overlaps(low: u64, high: u64, from: u64, to: u64) -> bool
    ensures { result ≡ overlap low high from to }
{
    (low < high) & (low < to) & (from < high) & (from < to)
}

// The quantity of a pair, counted from 0. A pair that is there whole is read as a part of its own, so that one test serves all its bytes.
pub fn quantity_at(offer: &[u8], k: usize) -> u64
    requires { k < 20 }
    ensures { result ≡ quantity offer.now k }
{
    let at = 6 * k;
    let end = at + 6;
    if offer.len() < end {
        return fields::u16_at(offer, at) as u64;
    }
    fields::u16_at(&offer[at..end], 0) as u64
}

// Its price as four bytes, read the same way.
fn price_bytes(offer: &[u8], k: usize) -> u32
    requires { k < 20 }
    ensures { result ≡ number (6 * k + 2) 4 offer.now }
{
    let at = 6 * k;
    let end = at + 6;
    if offer.len() < end {
        return fields::u32_at(offer, at + 2);
    }
    fields::u32_at(&offer[at..end], 2)
}

// Its price, held plus 2^31.
pub fn price_at(offer: &[u8], k: usize) -> u64
    requires { k < 20 }
    ensures { (result ≡ price_at offer.now k) × (result < 4294967296) }
{
    ((price_bytes(offer, k) as u64) + BIAS) % 4294967296
}

// Whether a pair fails in a lamination.
fn fails_in(from: u64, to: u64, level: u64, t: Threshold, pair: Pair) -> bool
    requires { pair.price < 4294967296 }
    ensures { result ≡ fails_in t pair from to level }
{
    if overlaps(pair.low, pair.high, from, to) {
        fails(level, t, pair.price)
    } else {
        false
    }
}

// The least level of the laminations.
fn least_level(cents: &[u64; 20], count: usize) -> u64
    requires { count ≤ 20 }
    ensures { result ≡ least_of cents.now count }
{
    let mut least = u64::MAX;
    for i in 0..count {
        least = least.min(cents[i]);
    }
    least
}

// The first lamination that a pair fails in, counted from 1. A price that passes at the least level passes in every lamination, and most do.
fn failing_lamination<'a>(
    from: &'a [u64; 20],
    to: &'a [u64; 20],
    cents: &'a [u64; 20],
    count: usize,
    least: u64,
    t: Threshold,
    pair: Pair,
) -> Option<usize>
    requires { (count ≤ 20) × (least ≡ least_of cents.now count) × (pair.price < 4294967296) }
    ensures { result ≡ first_failing t pair from.now to.now cents.now 0 count }
{
    if !fails(least, t, pair.price) {
        return None;
    }
    for i in 0..count {
        if fails_in(from[i], to[i], cents[i], t, pair) {
            return Some(i + 1);
        }
    }
    None
}

// The test of an energy offer: each pair in turn, against laminations in lent arrays.
fn offer_test<'a>(
    from: &'a [u64; 20],
    to: &'a [u64; 20],
    cents: &'a [u64; 20],
    count: usize,
    t: Threshold,
    offer: &[u8],
) -> Verdict
    requires { (count ≤ 20) × (length offer.now ≤ 120) }
    ensures { result ≡ offer_shown t (laminations_from (in_arrays from.now to.now cents.now count) 0 count)
        offer.now 0 (length offer.now / 6) }
{
    let least = least_level(cents, count);
    let pairs = offer.len() / 6;
    let mut low = 0;
    for k in 0..pairs {
        let high = quantity_at(offer, k);
        let price = price_at(offer, k);
        let pair = Pair { low, high, price };
        if let Some(lamination) = failing_lamination(from, to, cents, count, least, t, pair) {
            return Verdict::Fails {
                pair: k + 1,
                lamination,
            };
        }
        low = high;
    }
    Verdict::Passes
}

// The same of an offer whose last price is its highest: where that passes at the least level all pass, and most offers do.
pub fn rising_offer_test<'a>(
    from: &'a [u64; 20],
    to: &'a [u64; 20],
    cents: &'a [u64; 20],
    count: usize,
    t: Threshold,
    offer: &[u8],
) -> Verdict
    requires { (count ≤ 20) × (length offer.now ≤ 120) × LastHighest offer.now (length offer.now / 6) }
    ensures { result ≡ offer_shown t (laminations_from (in_arrays from.now to.now cents.now count) 0 count)
        offer.now 0 (length offer.now / 6) }
{
    let pairs = offer.len() / 6;
    if pairs == 0 {
        return Verdict::Passes;
    }
    let least = least_level(cents, count);
    if fails(least, t, price_at(offer, pairs - 1)) {
        return offer_test(from, to, cents, count, t, offer);
    }
    Verdict::Passes
}

// The test of a single price against its level.
pub fn single_test(level: u64, t: Threshold, price: u64) -> Verdict
    requires { price < 4294967296 }
    ensures { result ≡ single_shown t price level }
{
    if fails(level, t, price) {
        Verdict::Fails {
            pair: 0,
            lamination: 0,
        }
    } else {
        Verdict::Passes
    }
}
