// One pass over a dossier fills an index: for each kind and key the place of the current record.
#![tactic(auto)]

pub mod charging;
pub mod keys;
pub mod reader;
pub mod slotted;

ghost use Rattle.std.specs.Prelude.{◌≡◌, Bool, true, false, ◌||◌, ◌+◌, ◌<◌, ◌≤◌, length, drop};
ghost use Rattle.records.specs.Record.{mark, fault, is_dated};
ghost use Rattle.records.specs.Dossier.{first_of};
ghost use Rattle.records.specs.Walk.{walk};
ghost use Rattle.index.specs.Entries.{fault_number, entry_as};
ghost use Rattle.index.specs.Intervals.{HeldIn};
ghost use Rattle.index.specs.Slots.{held_issue, newer, higher, kept, keep_step, pass_of, slots_of, slots_empty, slots_full};

use crate::charging::Run;
use crate::reader::read;
use records::Refusal;

// The slots of marks that every station may have, of HR and of AO; of all marks but FP; and with them.
pub const SHORT: usize = 494;

pub const NARROW: usize = 2511;

pub const WIDE: usize = 6511;

// Before the first record.
const START: Run = Run {
    end: 0,
    rising: true,
    top: 0,
};

// A record's length, and the slot of its kind and key.
#[derive(Clone, Copy)]
pub struct Entry {
    pub len: usize,
    pub slot: usize,
}

// A record without fault: one that counts from hour 0, or one with a first hour. Two arms, and no flag in the entry, which the pass would carry past
// each record (tried, and slower: up to a sixth more instructions).
#[derive(Clone, Copy)]
pub enum Sound {
    Undated(Entry),
    Dated(Entry),
}

// What a record may draw by itself: its mark is unknown, it is cut short, or a field is outside its range.
#[derive(Clone, Copy, Debug, PartialEq, Eq)]
pub enum Fault {
    UnknownMark,
    CutShort,
    OutsideRange,
}

// The paper's number of it.
impl From<Fault> for u8 {
    ghost from_gives = { λ f n. n ≡ fault_number f };

    fn from(fault: Fault) -> u8 {
        match fault {
            Fault::UnknownMark => 1,
            Fault::CutShort => 2,
            Fault::OutsideRange => 3,
        }
    }
}

// What the record reader answers: a record without fault, or the fault that it draws.
pub type Reading = Result<Sound, Fault>;

// What a pass tells of the records: whether every issue was above all earlier ones of its kind and key, the highest slot of a record, and whether one has a
// first hour.
#[derive(Clone, Copy)]
pub struct Summary {
    pub rising: bool,
    pub top: usize,
    pub dated: bool,
}

// The same, or the first fault.
pub type Passed = Result<Summary, Refusal>;

// The issue of the record that a slot of value v holds, plus 1; 0 if it holds none.
pub fn issue_held(d: &[u8], v: u16) -> u64
    requires { length d.now ≤ 60000 }
    ensures { result ≡ held_issue d.now v }
{
    let q = v as usize;
    if (q == 0) | (d.len() < q + 5) {
        return 0;
    }
    (fields::u32_at(d, q + 1) as u64) + 1
}

// Of a slot's value and the next one, the next if its issue is not below the one that is held.
pub fn newer_of(held: u64, issue: u64, v: u16, next: u16) -> u16
    ensures { result ≡ newer held issue v next }
{
    if held <= issue { next } else { v }
}

// A record without fault, whose entry was read, goes into its slot. A slot holds the place of its record plus 1, 0 for none: two bytes, so that an empty
// index is soon made. The issue is read where the record lies.
fn keep(d: &[u8], before: Run, entry: Entry, index: &mut [u16]) -> Run
    requires { (length d.now ≤ 60000) × (fault (first_of (drop before.end d.now)) ≡ 0)
        × (entry ≡ entry_as (mark (drop before.end d.now)) (drop before.end d.now)) }
    ensures { (result.end ≡ before.end + entry.len)
        × ((f : Bool) → kept index.new result.rising result.top (f || is_dated (mark (drop before.end d.now)))
        ≡ keep_step d.now (kept index.old before.rising before.top f) before.end
        (first_of (drop before.end d.now))) }
{
    let at = before.end;
    let rest = &d[at..];
    // never so: it tells the compiler that the issue's bytes are there
    if rest.len() < 6 {
        return before;
    }
    let j = entry.slot;
    let mut rising = before.rising;
    if j < index.len() {
        let issue = (fields::u32_at(rest, 2) as u64) + 1;
        let v = index[j];
        let held = issue_held(d, v);
        rising = rising & (held < issue);
        index[j] = newer_of(held, issue, v, (at as u16) + 1);
    }
    Run {
        end: at + entry.len,
        rising,
        top: before.top.max(j),
    }
}

// Few dossiers have the marks whose slots come last, so an index may end before them; a record without a slot is passed over, as the highest slot tells.
// The records of charging intervals are read in runs, which keep the week's sums; those of an empty index are 0.
pub fn pass(d: &[u8], index: &mut [u16], sums: &mut [u64]) -> Passed
    requires { (length d.now ≤ 60000) × (length sums.old ≡ 2) × HeldIn d.now index.old sums.old }
    ensures { (result ≡ pass_of (walk (keep_step d.now) (kept index.old true 0 false) d.now))
        × (index.new ≡ slots_of index.new (walk (keep_step d.now) (kept index.old true 0 false) d.now))
        × HeldIn d.now index.new sums.new }
{
    let mut run = START;
    let mut dated = false;
    // a scan by each record's own length
    while run.end < d.len() {
        let at = run.end;
        let rest = &d[at..];
        if reader::begins_interval(rest) {
            let next = charging::intervals_from(d, run, index, sums);
            if next.end == at {
                let number = u8::from(reader::interval_fault(rest));
                return Err(Refusal { number, place: at });
            }
            run = next;
        } else {
            let sound = match read(rest) {
                Ok(sound) => sound,
                Err(_) => {
                    let number = u8::from(reader::fault_of(rest));
                    return Err(Refusal { number, place: at });
                }
            };
            let entry = match sound {
                Sound::Undated(entry) => entry,
                Sound::Dated(entry) => {
                    dated = true;
                    entry
                }
            };
            run = keep(d, run, entry, index);
        }
    }
    Ok(Summary {
        rising: run.rising,
        top: run.top,
        dated,
    })
}

// Whether n slots from slot j on are empty.
pub fn slots_empty(index: &[u16], j: usize, n: usize) -> bool
    requires { j + n ≤ length index.now }
    ensures { result ≡ slots_empty index.now j n }
{
    let mut any = 0;
    for v in &index[j..j + n] {
        any |= *v;
    }
    any == 0
}

// Whether none of n slots from slot j on is empty; a slot that the index lacks is. Where all are there nothing is asked of each, so that the compiler
// takes several at a time.
pub fn slots_full(index: &[u16], j: usize, n: usize) -> bool
    requires { (j < 65536) × (n < 65536) }
    ensures { result ≡ slots_full index.now j n }
{
    if index.len() < j + n {
        return n == 0;
    }
    let mut all = true;
    for v in &index[j..j + n] {
        all &= *v != 0;
    }
    all
}
