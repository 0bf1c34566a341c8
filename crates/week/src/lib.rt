// The charging week: the price and energy of each interval, in two lent lists.
#![tactic(auto)]

ghost use Rattle.std.specs.Prelude.{◌≡◌, cond, List, ◌++◌, ℕ, ◌+◌, ◌-◌, ◌≤◌, ◌<◌, eqb, ℤ, pos, length, get_or, set, drop};
ghost use Rattle.fields.specs.Numbers.{unbiased};
ghost use Rattle.records.specs.Table.{CH};
ghost use Rattle.records.specs.Record.{mark, size};
ghost use Rattle.station.specs.Week.{intervals, week_prices, week_energies};
ghost use Rattle.index.specs.Slots.{slot, narrow, wide};
ghost use Rattle.lookup.specs.Parts.{Whole};
ghost use Rattle.rules.specs.Answer.{IsAccepted};
ghost use Rattle.rules.specs.Week.{week_answer, prices_after, energies_after};
ghost use Rattle.week.specs.Filled.{Stands, Filled};

use index::charging::Interval;
use lookup::Room;
use records::{Answer, Refusal};

// How many intervals a week has.
pub const INTERVALS: usize = 2016;

// A price that is held plus 2^31, in cents.
fn cents(price: u64) -> i32
    requires { price < 4294967296 }
    ensures { result ≡ unbiased price }
{
    ((price as i64) - 2147483648) as i32
}

// The record of an interval that lies at a place goes into the lists if it is the one that its slot names.
fn put_interval(index: &[u16], at: usize, i: Interval, prices: &mut [i32], energies: &mut [u32])
    requires { (narrow ≤ length index.now) × (at < 65536) × (1 ≤ i.n) × (i.n ≤ intervals) × (i.price < 4294967296) × (i.energy < 4294967296)
        × (intervals ≤ length prices.old) × (intervals ≤ length energies.old) }
    ensures { (prices.new ≡ cond (eqb (get_or index.now (slot CH i.n) 0) (at + 1))
        (set prices.old (i.n - 1) (unbiased i.price)) prices.old)
        × (energies.new ≡ cond (eqb (get_or index.now (slot CH i.n) 0) (at + 1))
        (set energies.old (i.n - 1) i.energy) energies.old) }
{
    if index[index::keys::slot_ch(i.n)] as usize == at + 1 {
        prices[i.n - 1] = cents(i.price);
        energies[i.n - 1] = i.energy as u32;
    }
}

// The record at a place, whatever it is; then comes the next.
fn put_record(d: &[u8], index: &[u16], at: usize, prices: &mut [i32], energies: &mut [u32]) -> usize
    requires { IsAccepted d.now × Whole d.now index.now × (narrow ≤ length index.now) × (at < length d.now)
        × (intervals ≤ length prices.old) × (intervals ≤ length energies.old) }
    ensures { (result ≡ at + size (mark (drop at d.now))) × ((p : List ℤ) (e : List ℕ)
        → Filled d.now index.now p e at prices.old energies.old
        → Filled d.now index.now p e result prices.new energies.new) }
{
    let i = index::charging::interval_at(d, at);
    if i.n == 0 {
        return at + records::length_of(records::mark_at(&d[at..]));
    }
    put_interval(index, at, i, prices, energies);
    at + records::CH.length
}

// The week of an accepted dossier: the records are read as they lie, once. Where no interval has a record there is nothing to read.
fn put_week(d: &[u8], index: &[u16], prices: &mut [i32], energies: &mut [u32])
    requires { IsAccepted d.now × Whole d.now index.now × (narrow ≤ length index.now) × (intervals ≤ length prices.old)
        × (intervals ≤ length energies.old) }
    ensures { (prices.new ≡ week_prices d.now ++ drop intervals prices.old)
        × (energies.new ≡ week_energies d.now ++ drop intervals energies.old) }
{
    prices[..INTERVALS].fill(0);
    energies[..INTERVALS].fill(0);
    if index::slots_empty(index, index::keys::slot_ch(1), INTERVALS) {
        return;
    }
    let mut at = 0;
    // each record says where the next lies, so nothing is counted here
    while at < d.len() {
        at = put_record(d, index, at, prices, energies);
    }
}

// The week of a dossier, with an index of so many slots, those of CH among them.
fn week_in<const SLOTS: usize>(d: &[u8], prices: &mut [i32], energies: &mut [u32]) -> Answer
    requires { (narrow ≤ SLOTS) × (SLOTS ≤ wide) }
    ensures { (result ≡ week_answer d.now (length prices.old) (length energies.old))
        × (prices.new ≡ prices_after d.now prices.old energies.old)
        × (energies.new ≡ energies_after d.now prices.old energies.old) }
{
    let mut index = [0u16; SLOTS];
    let mut sums = [0u64; 2];
    acceptance::judge(d, &mut index, &mut sums)?;
    if (prices.len() < INTERVALS) | (energies.len() < INTERVALS) {
        return Err(Refusal {
            number: 15,
            place: 0,
        });
    }
    put_week(d, &index, prices, energies);
    Ok(())
}

// The same of a dossier. Whatever else it wants, its index has the slots of CH.
pub fn week(d: &[u8], prices: &mut [i32], energies: &mut [u32]) -> Answer
    ensures { (result ≡ week_answer d.now (length prices.old) (length energies.old))
        × (prices.new ≡ prices_after d.now prices.old energies.old)
        × (energies.new ≡ energies_after d.now prices.old energies.old) }
{
    match lookup::room_for(d)? {
        Room::Wide => week_in::<{ index::WIDE }>(d, prices, energies),
        Room::Narrow | Room::Short => week_in::<{ index::NARROW }>(d, prices, energies),
    }
}
