// The records of charging intervals, read as they lie together, with the week's sums: price × energy, the price plus 2^31, and energy. A record that takes
// another's slot takes its part of the sums as well, so that no record is looked up for an interval afterwards.
ghost use Rattle.std.specs.Prelude.{◌≡◌, Bool, false, ◌+◌, ◌-◌, ◌*◌, ◌≤◌, length, drop};
ghost use Rattle.records.specs.Walk.{Rest};
ghost use Rattle.index.specs.Slots.{Kept, kept, keep_step};
ghost use Rattle.index.specs.Intervals.{is_interval, interval_at, held_price, held_energy, HeldIn};

use crate::keys::slot_ch;
use crate::reader::begins_with;
use crate::{issue_held, newer_of};

// What the record of an interval says: the issue plus 1, the price plus 2^31. Each number is read once, so that the compiler takes it with one load.
// Interval 0 stands for no such record.
#[derive(Clone, Copy)]
pub struct Interval {
    pub n: usize,
    pub issue: u64,
    pub price: u64,
    pub energy: u64,
}

// The two sums.
#[derive(Clone, Copy)]
pub struct Sums {
    pub cost: u64,
    pub energy: u64,
}

// Where records of intervals end that lie together, whether every issue so far rose, and the highest slot of a record.
#[derive(Clone, Copy)]
pub struct Run {
    pub end: usize,
    pub rising: bool,
    pub top: usize,
}

// The interval whose record lies at a place.
pub fn interval_at(d: &[u8], at: usize) -> Interval
    requires { (length d.now ≤ 60000) × (at ≤ length d.now) }
    ensures { result ≡ interval_at d.now at }
{
    if at + 16 <= d.len() {
        let r = &d[at..at + 16];
        let n = fields::u16_at(r, 6) as usize;
        let price = fields::biased(fields::u32_at(r, 8)) as u64;
        let energy = fields::u32_at(r, 12) as u64;
        let known = begins_with(r, b"CH");
        let fair = (2147283648 <= price) & (price <= 2147683648) & (energy <= 1000000);
        if known & (1 <= n) & (n <= 2016) & fair {
            let issue = (fields::u32_at(r, 2) as u64) + 1;
            return Interval {
                n,
                issue,
                price,
                energy,
            };
        }
    }
    Interval {
        n: 0,
        issue: 0,
        price: 0,
        energy: 0,
    }
}

// Some sums with an interval.
fn with(i: Interval, sums: Sums) -> Sums
    requires { (i.price ≤ 2147683648) × (i.energy ≤ 1000000) × (sums.cost ≤ 4329730234368000000) × (sums.energy ≤ 2016000000) }
    ensures { (result.cost ≡ sums.cost + i.price * i.energy) × (result.energy ≡ sums.energy + i.energy) }
{
    Sums {
        cost: sums.cost + i.price * i.energy,
        energy: sums.energy + i.energy,
    }
}

// With an interval, and without the record that a slot of value v would hold. Of an interval's two records the one that isn't kept is taken off, be it
// the new one, so that the processor has no branch to foretell.
fn instead(d: &[u8], i: Interval, v: u16, sums: Sums) -> Sums
    requires { (length d.now ≤ 60000) × (1 ≤ v) × (v + 15 ≤ length d.now) × (i.price ≤ 2147683648) × (i.energy ≤ 1000000)
        × (held_price d.now v ≤ 2147683648) × (held_energy d.now v ≤ 1000000)
        × (held_price d.now v * held_energy d.now v ≤ sums.cost + i.price * i.energy)
        × (held_energy d.now v ≤ sums.energy + i.energy) × (sums.cost ≤ 4329730234368000000) × (sums.energy ≤ 2016000000) }
    ensures { (result.cost ≡ sums.cost + i.price * i.energy - held_price d.now v * held_energy d.now v)
        × (result.energy ≡ sums.energy + i.energy - held_energy d.now v) }
{
    let q = v as usize;
    let r = &d[q - 1..q + 15];
    let price = fields::biased(fields::u32_at(r, 8)) as u64;
    let energy = fields::u32_at(r, 12) as u64;
    let more = with(i, sums);
    Sums {
        cost: more.cost - price * energy,
        energy: more.energy - energy,
    }
}

// The records of intervals from a place on, as far as they lie together. An interval's first record replaces none, which is by far the commonest case.
pub fn intervals_from(d: &[u8], before: Run, index: &mut [u16], lent: &mut [u64]) -> Run
    requires { (length d.now ≤ 60000) × (before.end ≤ length d.now) × (length lent.old ≡ 2) × HeldIn d.now index.old lent.old }
    ensures { (before.end ≤ result.end) × (result.end ≤ length d.now) × HeldIn d.now index.new lent.new
        × (result.end ≡ before.end → is_interval (drop before.end d.now) ≡ false)
        × ((a : Kept) (f : Bool) → Rest (keep_step d.now) a d.now before.end (kept index.old before.rising before.top f)
        → Rest (keep_step d.now) a d.now result.end (kept index.new result.rising result.top f)) }
{
    let mut end = before.end;
    let mut rising = before.rising;
    let mut top = before.top;
    let mut sums = Sums {
        cost: lent[0],
        energy: lent[1],
    };
    // a scan: how many records lie together shows only as they are read
    let mut i = interval_at(d, end);
    while i.n != 0 {
        let j = slot_ch(i.n);
        top = top.max(j);
        if j < index.len() {
            let v = index[j];
            if v == 0 {
                index[j] = (end as u16) + 1;
                sums = with(i, sums);
            } else {
                let held = issue_held(d, v);
                rising = rising & (held < i.issue);
                index[j] = newer_of(held, i.issue, v, (end as u16) + 1);
                sums = instead(d, i, newer_of(held, i.issue, (end as u16) + 1, v), sums);
            }
        }
        end += 16;
        i = interval_at(d, end);
    }
    lent[0] = sums.cost;
    lent[1] = sums.energy;
    Run { end, rising, top }
}
