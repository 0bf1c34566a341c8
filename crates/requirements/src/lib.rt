// 7, 8, 9 and 17: the curve, the fuel, the window and the forecast.
#![tactic(auto)]

ghost use Rattle.std.specs.Prelude.{◌≡◌, ◌≤◌, length};
ghost use Rattle.lists.specs.Tests.{all_to};
ghost use Rattle.records.specs.Table.{FU};
ghost use Rattle.records.specs.Dossier.{records};
ghost use Rattle.station.specs.Parameters.{parameters};
ghost use Rattle.lookup.specs.Parts.{Whole, Indexed, Complete};
ghost use Rattle.requirements.specs.Segments.{fuelled};
ghost use Rattle.rules.specs.Curve.{curve_holds, curve_fits, fuel_holds, window_fits, forecast_fits};
ghost use Rattle.rules.specs.Answer.{unsupported};

use index::{slots_empty, slots_full};
use records::{Answer, Refusal};

// The curve of n points, from each point to the next. Slopes are compared by multiplying across.
fn curve_holds(d: &[u8], index: &[u16], n: usize) -> bool
    requires { Indexed d.now index.now × (2 ≤ n) × (n ≤ 21) }
    ensures { result ≡ curve_holds (parameters (records d.now)) n }
{
    let mut ok = 0 < lookup::hp(d, index, 1).len();
    let mut w = parameters::output(d, index, 1);
    let mut h = parameters::heat(d, index, 1);
    let mut dw = 0;
    let mut dh = 0;
    for i in 1..n {
        let there = 0 < lookup::hp(d, index, i + 1).len();
        let w1 = parameters::output(d, index, i + 1);
        let h1 = parameters::heat(d, index, i + 1);
        let a = w1.saturating_sub(w);
        let b = h1.saturating_sub(h);
        ok &= there & (w < w1) & (h <= h1) & (dh * a <= b * dw);
        w = w1;
        h = h1;
        dw = a;
        dh = b;
    }
    ok & (w == parameters::capacity(d, index))
}

// What 7 asks.
fn curve_fits(d: &[u8], index: &[u16]) -> bool
    requires { Indexed d.now index.now }
    ensures { result ≡ curve_fits (parameters (records d.now)) }
{
    if parameters::technology(d, index) != 1 {
        return true;
    }
    let n = parameters::points_of(d, index);
    if n < 2 {
        return false;
    }
    curve_holds(d, index, n)
}

// Whether a profile has an FU or FV, of any hour: its slot in the index of all records tells.
fn fuel_there(d: &[u8], index: &[u16], p: usize) -> bool
    requires { Whole d.now index.now × (1 ≤ p) × (p ≤ 4) }
    ensures { result ≡ (parameters (records d.now)).has FU p }
{
    index[index::keys::slot_fu(p)] != 0
}

// Whether a request is absent or withdrawn, or its profile has one.
fn request_fuelled(d: &[u8], index: &[u16], n: usize) -> bool
    requires { Whole d.now index.now × (1 ≤ n) × (n ≤ 16) }
    ensures { result ≡ fuelled (parameters (records d.now)) n }
{
    let p = parameters::requested(d, index, n);
    if p == 0 {
        return true;
    }
    fuel_there(d, index, p)
}

// The same of every request; without any, the slots tell it at once.
fn requests_fuelled(d: &[u8], index: &[u16]) -> bool
    requires { Whole d.now index.now }
    ensures { result ≡ all_to 16 (fuelled (parameters (records d.now))) }
{
    if slots_empty(index, index::keys::slot_rq(1), 16) {
        return true;
    }
    let mut ok = true;
    for n in 1..=16 {
        ok &= request_fuelled(d, index, n);
    }
    ok
}

// What 8 asks.
fn fuel_holds(d: &[u8], index: &[u16]) -> bool
    requires { Whole d.now index.now }
    ensures { result ≡ fuel_holds (parameters (records d.now)) }
{
    fuel_there(d, index, 1) & requests_fuelled(d, index)
}

// What 9 asks. Whether hours 1 to the window are there, their slots tell; an hour without a slot is not.
fn window_fits(d: &[u8], index: &[u16]) -> bool
    requires { Whole d.now index.now × Complete d.now index.now }
    ensures { result ≡ window_fits (parameters (records d.now)) }
{
    if parameters::technology(d, index) != 3 {
        return true;
    }
    let hours = parameters::full_hours(d, index);
    let window = parameters::window(d, index);
    (0 < hours) & (hours <= (window as u64)) & slots_full(index, index::keys::slot_hr(1), window)
}

// What 17 asks. The same of places 1 to the window of the forecast.
fn forecast_fits(d: &[u8], index: &[u16]) -> bool
    requires { Whole d.now index.now × Complete d.now index.now }
    ensures { result ≡ forecast_fits (parameters (records d.now)) }
{
    if parameters::technology(d, index) != 4 {
        return true;
    }
    let window = parameters::window(d, index);
    (50 <= window) & slots_full(index, index::keys::slot_fp(1), window)
}

// 7, 8, 9 and 17.
pub fn unsupported_of(d: &[u8], index: &[u16]) -> Answer
    requires { Whole d.now index.now × Complete d.now index.now }
    ensures { result ≡ unsupported (parameters (records d.now)) (length d.now) }
{
    let place = d.len();
    if !curve_fits(d, index) {
        return Err(Refusal { number: 7, place });
    }
    if !fuel_holds(d, index) {
        return Err(Refusal { number: 8, place });
    }
    if !window_fits(d, index) {
        return Err(Refusal { number: 9, place });
    }
    if !forecast_fits(d, index) {
        return Err(Refusal { number: 17, place });
    }
    Ok(())
}
