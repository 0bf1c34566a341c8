// 6: the first record that counts at some hour and doesn't fit the technology. The definitions are in specs/, their laws in proofs/.
#![tactic(auto)]

ghost use Rattle.std.specs.Prelude.{◌≡◌, true, cond, eqb, ◌+◌, ◌*◌, ◌/◌, ◌<◌, ◌≤◌, length, take, drop};
ghost use Rattle.lists.specs.Lists.{Each, Member, those};
ghost use Rattle.records.specs.Marks.{row};
ghost use Rattle.records.specs.Record.{since};
ghost use Rattle.records.specs.Dossier.{records};
ghost use Rattle.index.specs.Slots.{slot_at};
ghost use Rattle.lookup.specs.Parts.{Whole, Complete};
ghost use Rattle.trials.specs.Trials.{valued};
ghost use Rattle.rules.specs.Fit.{Known, unfit};
ghost use Rattle.counting.specs.Sweep.{hides_at, hidden_at, shown, group_at, ids_from, group_in, place_in, Numbered, kept_by, Thinned};
ghost use Rattle.counting.specs.Sweep.{never, least_of, stepped, swept_in, Clean, Sought, Roomy};

use records::{Answer, Mark, Refusal, since_at};
use trials::tried_at;

// What is known behind a record in the order of kind, key and issue: the kind and key of the next, the least first hour of these, and the
// least place of a record that counts and doesn't fit.
#[derive(Clone, Copy)]
pub struct Swept {
    pub group: u64,
    pub least: u64,
    pub found: usize,
}

// Later than every first hour.
const NEVER: u64 = 4294967296;

// Behind every place, and above every kind and key.
const NOWHERE: usize = 65536;

// A number has kind and key at the top, then the issue, then the place. So many issues there are,
const ISSUES: u64 = 4294967296;

// so many places,
const PLACES: u64 = 65536;

// and so many numbers of one kind and key.
const GROUP: u64 = ISSUES * PLACES;

// So many keys of one kind have room in the number of kind and key.
const KEYS: usize = 4096;

// Kind and key of a record of that mark at the front, as one number.
#[tactic(auto, using(crate::proofs::Marks::from_low))]
fn group_at(mark: Mark, s: &[u8]) -> usize
    ensures { result ≡ group_at (row mark) s.now }
{
    let kind = records::kind_of(mark);
    let from = records::fields_at(mark);
    match kind {
        Mark::AD => {
            (11 + (fields::u8_at(s, from) as usize)) * KEYS + (fields::u16_at(s, from + 1) as usize)
        }
        Mark::AO => {
            (Mark::AD as usize) * KEYS
                + (fields::u8_at(s, from) as usize) * 80
                + (fields::u8_at(s, from + 1) as usize) * 20
                + (fields::u8_at(s, from + 2) as usize) * 4
                + (fields::u8_at(s, from + 3) as usize)
        }
        Mark::Unknown | Mark::RS | Mark::LC => (kind as usize) * KEYS,
        Mark::HP | Mark::FU | Mark::RQ | Mark::HR => {
            (kind as usize) * KEYS + (fields::u8_at(s, from) as usize)
        }
        _ => (kind as usize) * KEYS + (fields::u16_at(s, from) as usize),
    }
}

// The slot of an FU or MM of that mark at the front.
#[tactic(auto, using(crate::proofs::Marks::from_low))]
fn slot_at(mark: Mark, s: &[u8]) -> usize
    requires { valued (row mark) ≡ true }
    ensures { result ≡ slot_at (row mark) s.now }
{
    let at = records::fields_at(mark);
    let first = fields::u8_at(s, at) as usize;
    match records::kind_of(mark) {
        Mark::FU => index::keys::slot_fu(first),
        _ => index::keys::slot_mm(first, fields::u8_at(s, at + 1) as usize),
    }
}

// Whether the record that a slot of value v holds hides the one at the front at every hour.
fn hides(d: &[u8], v: u16, s: &[u8]) -> bool
    ensures { result ≡ hides_at d.now v s.now }
{
    let q = v as usize;
    if (q == 0) | (d.len() < q + 14) {
        return false;
    }
    let current = &d[q - 1..q + 14];
    (fields::u32_at(s, 2) < fields::u32_at(current, 2)) & (since_at(current) <= since_at(s))
}

// Whether the current record of its kind and key hides the record of that mark at the front, if it is an FU or MM. The test of its length is never so: it
// tells the compiler that the bytes are there.
fn hidden_at(d: &[u8], index: &[u16], mark: Mark, s: &[u8]) -> bool
    requires { slot_at (row mark) s.now < length index.now }
    ensures { result ≡ hidden_at d.now index.now (row mark) s.now }
{
    if !trials::is_valued(mark) | (s.len() < 15) {
        return false;
    }
    hides(d, index[slot_at(mark, s)], s)
}

// A number for each record of the kinds that are sought, all or FU and MM alone, that is not hidden so: kind and key, issue, place. Says how many. Each
// is written, and the next goes to the same place where it is not to be kept: what is hidden can't be foretold.
fn fill(d: &[u8], index: &[u16], all: bool, ids: &mut [u64]) -> usize
    requires { Roomy d.now (length ids.old) × Whole d.now index.now × Complete d.now index.now }
    ensures { (result ≤ length ids.old) × (length ids.new ≡ length ids.old)
        × (take result ids.new ≡ ids_from (shown all (records d.now)) 0 (records d.now))
        × Each (Numbered d.now) (take result ids.new) }
{
    let mut at = 0;
    let mut count = 0;
    // a `while`, since records differ in length
    while at < d.len() {
        let rest = &d[at..];
        let mark = records::mark_at(rest);
        let len = records::length_of(mark);
        let id = (group_at(mark, rest) as u64) * ISSUES + (fields::u32_at(rest, 2) as u64);
        ids[count] = id * PLACES + (at as u64);
        let sought = all | trials::is_valued(mark);
        count += (sought & !hidden_at(d, index, mark, rest)) as usize;
        at += len;
    }
    count
}

// A number of kind and key g, or 0.
fn like(g: u64, x: u64) -> u64
    ensures { result ≡ cond (eqb (group_in x) g) x 0 }
{
    if x / GROUP == g { x } else { 0 }
}

// One of some numbers that may hide many others, or 0: of the kind and key of the one in the middle, the second issue from the top, since what the first
// hides has no number. Any other would do.
fn hider_of(ids: &[u64]) -> u64
    ensures { 0 < result → Member result ids.now }
{
    if ids.is_empty() {
        return 0;
    }
    let g = ids[ids.len() / 2] / GROUP;
    let mut first = 0;
    let mut second = 0;
    for &id in ids {
        let x = like(g, id);
        second = second.max(first.min(x));
        first = first.max(x);
    }
    second
}

// Whether the record of number b, from hour h on, leaves that of number x unhidden.
fn is_kept(d: &[u8], b: u64, h: u32, x: u64) -> bool
    requires { place_in x ≤ length d.now }
    ensures { result ≡ kept_by d.now b h x }
{
    if (x / GROUP != b / GROUP) | (b / PLACES <= x / PLACES) {
        return true;
    }
    let at = (x % PLACES) as usize;
    since_at(&d[at..]) < h
}

// Leaves those numbers that it doesn't hide. Says how many.
fn thin(d: &[u8], b: u64, h: u32, ids: &mut [u64]) -> usize
    requires { Each (λ x. place_in x ≤ length d.now) ids.old }
    ensures { (result ≤ length ids.old) × (take result ids.new ≡ those (kept_by d.now b h) ids.old) }
{
    let mut count = 0;
    for i in 0..ids.len() {
        let x = ids[i];
        ids[count] = x;
        count += is_kept(d, b, h, x) as usize;
    }
    count
}

// Leaves those numbers that one of them doesn't hide. Says how many.
fn thinned(d: &[u8], ids: &mut [u64]) -> usize
    requires { Each (λ x. place_in x ≤ length d.now) ids.old }
    ensures { (result ≤ length ids.old) × Thinned d.now ids.old (take result ids.new) }
{
    let b = hider_of(ids);
    if b == 0 {
        return ids.len();
    }
    let at = (b % PLACES) as usize;
    thin(d, b, since_at(&d[at..]), ids)
}

// The least first hour of kind and key g that is known.
fn least_of(s: Swept, g: u64) -> u64
    ensures { result ≡ least_of s g }
{
    if g == s.group { s.least } else { NEVER }
}

// With the record of one number more. Only one that counts before the place that is found is tried.
fn step(d: &[u8], t: u8, s: Swept, x: u64) -> Swept
    requires { (place_in x ≤ length d.now) × Known t }
    ensures { (result ≡ stepped t d.now s x) × (since (drop (place_in x) d.now) < never) }
{
    let at = (x % PLACES) as usize;
    let rest = &d[at..];
    let group = x / GROUP;
    let hour = since_at(rest) as u64;
    let least = least_of(s, group);
    let found = s.found;
    if least <= hour {
        return Swept {
            group,
            least,
            found,
        };
    }
    if found <= at {
        return Swept {
            group,
            least: hour,
            found,
        };
    }
    let f = tried_at(t, rest);
    if f.fits {
        return Swept {
            group,
            least: hour,
            found,
        };
    }
    Swept {
        group,
        least: hour,
        found: at,
    }
}

// From the last number to the first: the least place of a record that counts and doesn't fit.
fn sweep(d: &[u8], t: u8, ids: &[u64]) -> usize
    requires { Each (λ x. place_in x ≤ length d.now) ids.now × Known t }
    ensures { (result ≡ (swept_in t d.now ids.now).found)
        × Each (λ x. since (drop (place_in x) d.now) < never) ids.now }
{
    let mut s = Swept {
        group: NOWHERE as u64,
        least: NEVER,
        found: NOWHERE,
    };
    for &x in ids.iter().rev() {
        s = step(d, t, s, x);
    }
    s.found
}

// The first record that counts and doesn't fit, by numbers for which there is room.
fn search(d: &[u8], index: &[u16], t: u8, all: bool, ids: &mut [u64], spare: &mut [u64]) -> Answer
    requires { Roomy d.now (length ids.old) × (length ids.old / 2 ≤ length spare.old) × Clean d.now index.now × Sought all t d.now × Known t }
    ensures { result ≡ unfit t (records d.now) }
{
    let m = fill(d, index, all, ids);
    let n = thinned(d, &mut ids[..m]);
    sorting::sort(&mut ids[..n], spare);
    let place = sweep(d, t, &ids[..n]);
    if place < NOWHERE {
        return Err(Refusal { number: 6, place });
    }
    Ok(())
}

// The same with room of its own for so many numbers, and for half of them aside. What is cleared stays small beside the dossier.
fn in_room<const IDS: usize, const SPARE: usize>(
    d: &[u8],
    index: &[u16],
    t: u8,
    all: bool,
) -> Answer
    requires room { Roomy d.now IDS × (IDS ≤ 65536) × (IDS / 2 ≤ SPARE) × (SPARE ≤ IDS) }
    requires read { Clean d.now index.now × Sought all t d.now × Known t }
    ensures { result ≡ unfit t (records d.now) }
{
    let mut ids = [0u64; IDS];
    let mut spare = [0u64; SPARE];
    search(d, index, t, all, &mut ids, &mut spare)
}

// By the room for more than 2,000 bytes. Called from two functions, it keeps its 72 KB in a frame of its own.
fn in_large(d: &[u8], index: &[u16], t: u8, all: bool) -> Answer
    requires { Clean d.now index.now × Sought all t d.now × Known t }
    ensures { result ≡ unfit t (records d.now) }
{
    if d.len() <= 8000 {
        return in_room::<800, 400>(d, index, t, all);
    }
    if d.len() <= 16000 {
        return in_room::<1600, 800>(d, index, t, all);
    }
    if d.len() <= 32000 {
        return in_room::<3200, 1600>(d, index, t, all);
    }
    in_room::<6000, 3000>(d, index, t, all)
}

// By the room for at most 2,000 bytes.
fn in_small(d: &[u8], index: &[u16], t: u8, all: bool) -> Answer
    requires { Clean d.now index.now × Sought all t d.now × Known t }
    ensures { result ≡ unfit t (records d.now) }
{
    if d.len() <= 500 {
        return in_room::<50, 25>(d, index, t, all);
    }
    if d.len() <= 2000 {
        return in_room::<200, 100>(d, index, t, all);
    }
    // never so: it is the second call of `in_large`
    in_large(d, index, t, all)
}

// The first record that counts at some hour and doesn't fit. Where others than FU and MM are known to fit, not all kinds need be sought.
pub fn first_unfit(d: &[u8], index: &[u16], t: u8, all: bool) -> Answer
    requires { Clean d.now index.now × Sought all t d.now × Known t }
    ensures { result ≡ unfit t (records d.now) }
{
    if 2000 < d.len() {
        return in_large(d, index, t, all);
    }
    in_small(d, index, t, all)
}
