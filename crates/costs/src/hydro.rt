// The hydroelectric level: the forecast price at the place from the top.
ghost use Rattle.std.specs.Prelude.{◌≡◌, ◌/◌, ◌-◌, ◌≤◌};
ghost use Rattle.station.specs.Parameters.{window, place_price};
ghost use Rattle.lookup.specs.Parts.{Indexed, Complete, parameters_held, amounts_held};
ghost use Rattle.formulas.specs.Sums.{list_to, from_top};
ghost use Rattle.formulas.specs.Exact.{micro_dollars};
ghost use Rattle.formulas.specs.Levels.{parameters_in, amounts_in, forecast_price, hydro_energy};

use crate::fill::last_places;
use crate::maintenance::additions;

// The price at a place from the top among those of places 1 on, plus 2^31, through an array with room for all.
fn price_from_top_in<const ROOM: usize>(d: &[u8], index: &[u16], places: usize, place: usize) -> u32
    requires { Indexed d.now index.now × Complete d.now index.now × (places ≤ ROOM) × (ROOM ≤ 4000) × (1 ≤ place) × (place ≤ places) }
    ensures { (result ≡ from_top place (list_to places (place_price (amounts_in d.now)))) × (result ≤ 2147683648) }
{
    let mut table = [0u32; ROOM];
    last_places(&mut table, places, |n| parameters::place_price(d, index, n));
    let all = &table[..];
    arithmetic::highest::from_top(&all[ROOM - places..], place)
}

// The same. A short forecast has a short array: to clear one for the longest would be a seventh of its time.
fn price_from_top(d: &[u8], index: &[u16], places: usize, place: usize) -> u32
    requires { Indexed d.now index.now × Complete d.now index.now × (places ≤ 4000) × (1 ≤ place) × (place ≤ places) }
    ensures { (result ≡ from_top place (list_to places (place_price (amounts_in d.now)))) × (result ≤ 2147683648) }
{
    if places <= 400 {
        price_from_top_in::<400>(d, index, places, place)
    } else {
        price_from_top_in::<4000>(d, index, places, place)
    }
}

// The greater of 0 and the price at the forecast's place, in cents, through an index of every record.
fn forecast_through(d: &[u8], index: &[u16], places: usize) -> u64
    requires { Indexed d.now index.now × Complete d.now index.now × (places ≡ window (parameters_in d.now)) × (50 ≤ places) × (places ≤ 4000) }
    ensures { (result ≡ forecast_price (parameters_in d.now) (amounts_in d.now)) × (result ≤ 200000) }
{
    let price = price_from_top(d, index, places, places / 50);
    (price as u64).saturating_sub(2147483648)
}

// The same. An index at hand with the slots of FP has one for every record; without them another is filled.
fn forecast_price(d: &[u8], index: &[u16], places: usize) -> u64
    requires { Indexed d.now index.now × (places ≡ window (parameters_in d.now)) × (50 ≤ places) × (places ≤ 4000) }
    ensures { (result ≡ forecast_price (parameters_in d.now) (amounts_in d.now)) × (result ≤ 200000) }
{
    if index::WIDE <= index.len() {
        return forecast_through(d, index, places);
    }
    let mut full = [0u16; index::WIDE];
    lookup::fill(d, &mut full);
    forecast_through(d, &full, places)
}

// The sum of its one lamination.
pub fn hydro_energy(d: &[u8], index: &[u16], p: usize) -> u64
    requires { Indexed d.now index.now × (1 ≤ p) × (p ≤ 4) × (50 ≤ window (parameters_held d.now index.now)) }
    ensures { result ≡ micro_dollars (hydro_energy (parameters_held d.now index.now)
        (amounts_held d.now index.now) p) }
{
    let price = forecast_price(d, index, parameters::window(d, index));
    price * 10000 + additions(d, index, p)
}
