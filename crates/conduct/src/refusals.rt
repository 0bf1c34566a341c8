// 10, 11, 12 and 14: what an offer, a level or a condition draws.
ghost use Rattle.std.specs.Prelude.{◌≡◌, ◌≤◌, ◌/◌, length};
ghost use Rattle.records.specs.Answers.{Accepted};
ghost use Rattle.lookup.specs.Parts.{Indexed, parameters_held};
ghost use Rattle.verdicts.specs.Refusals.{malformed as malformed_from, above_capacity, length_refusal, level_refusal};
ghost use Rattle.verdicts.specs.Refusals.{condition_refusal, offer_refusal, price_refusal};
ghost use Rattle.conduct.specs.Pairs.{pair_test};

use records::{Answer, Refusal};

// Whether a pair holds beside the quantity and the price before it.
fn pair_holds(low: u64, last: u64, high: u64, price: u64) -> bool
    ensures { result ≡ pair_test low last high price }
{
    (low < high)
        & (records::LOWEST_PRICE <= price)
        & (price <= records::HIGHEST_PRICE)
        & (last <= price)
}

// 10 at the first pair that doesn't hold.
fn malformed(offer: &[u8]) -> Answer
    requires { length offer.now ≤ 120 }
    ensures { result ≡ malformed_from offer.now 0 (length offer.now / 6) }
{
    let pairs = offer.len() / 6;
    let mut low = 0;
    let mut last = 0;
    for k in 0..pairs {
        let high = limits::quantity_at(offer, k);
        let price = limits::price_at(offer, k);
        if !pair_holds(low, last, high, price) {
            return Err(Refusal {
                number: 10,
                place: 6 * k,
            });
        }
        low = high;
        last = price;
    }
    Ok(())
}

// 11 at the first pair whose quantity is above the capacity.
fn above_capacity(d: &[u8], index: &[u16], offer: &[u8]) -> Answer
    requires { Indexed d.now index.now × (length offer.now ≤ 120) }
    ensures { result ≡ above_capacity (parameters_held d.now index.now) offer.now 0 (length offer.now / 6) }
{
    let capacity = parameters::capacity(d, index);
    let pairs = offer.len() / 6;
    for k in 0..pairs {
        if capacity < limits::quantity_at(offer, k) {
            return Err(Refusal {
                number: 11,
                place: 6 * k,
            });
        }
    }
    Ok(())
}

// 11 of an offer that draws no 10: its quantities rise, so where the last is not above the capacity, none is.
fn capacity_refusal(d: &[u8], index: &[u16], offer: &[u8]) -> Answer
    requires { Indexed d.now index.now × (length offer.now ≤ 120) × (malformed_from offer.now 0 (length offer.now / 6) ≡ Accepted) }
    ensures { result ≡ above_capacity (parameters_held d.now index.now) offer.now 0 (length offer.now / 6) }
{
    let pairs = offer.len() / 6;
    if pairs == 0 {
        return Ok(());
    }
    let capacity = parameters::capacity(d, index);
    if limits::quantity_at(offer, pairs - 1) <= capacity {
        return Ok(());
    }
    above_capacity(d, index, offer)
}

// 10 at the offer's length, if that isn't 6 to 120 in sixes.
fn length_refusal(offer: &[u8]) -> Answer
    ensures { result ≡ length_refusal offer.now }
{
    let n = offer.len();
    if (6 <= n) & (n <= 120) & (n % 6 == 0) {
        Ok(())
    } else {
        Err(Refusal {
            number: 10,
            place: n,
        })
    }
}

// 12, put to the single-price test.
fn level_refusal(d: &[u8], index: &[u16], level: u8) -> Answer
    requires { Indexed d.now index.now }
    ensures { result ≡ level_refusal (parameters_held d.now index.now) level }
{
    let technology = parameters::technology(d, index);
    if (level == 1) | !rules::level_held(technology, level) {
        Err(Refusal {
            number: 12,
            place: 0,
        })
    } else {
        Ok(())
    }
}

// 14, of a level from 1 to 4.
fn condition_refusal(d: &[u8], index: &[u16], level: usize, condition: usize) -> Answer
    requires { Indexed d.now index.now × (1 ≤ level) × (level ≤ 4) }
    ensures { result ≡ condition_refusal (parameters_held d.now index.now) level condition }
{
    if (1 <= condition) & (condition <= 3) {
        let th = lookup::th(d, index, condition, level);
        if 0 < th.len() {
            return Ok(());
        }
    }
    Err(Refusal {
        number: 14,
        place: 0,
    })
}

// The refusals of an energy offer, in their order.
pub fn offer_refusal(d: &[u8], index: &[u16], condition: usize, offer: &[u8]) -> Answer
    requires { Indexed d.now index.now }
    ensures { result ≡ offer_refusal (parameters_held d.now index.now) condition offer.now }
{
    condition_refusal(d, index, 1, condition)?;
    length_refusal(offer)?;
    malformed(offer)?;
    capacity_refusal(d, index, offer)
}

// The refusals of a single price, in their order.
pub fn price_refusal(d: &[u8], index: &[u16], level: u8, condition: usize) -> Answer
    requires { Indexed d.now index.now }
    ensures { result ≡ price_refusal (parameters_held d.now index.now) level condition }
{
    level_refusal(d, index, level)?;
    condition_refusal(d, index, level as usize, condition)
}
