// The index of an hour, made of that of all records. Only kinds that may have first hours have other current records at another hour, and their slots lie
// together.
#![tactic(auto)]

pub mod owners;

ghost use Rattle.std.specs.Prelude.{◌≡◌, true, false, cond, ℕ, ◌+◌, ◌<◌, ◌≤◌, leb, length};
ghost use Rattle.fields.specs.Numbers.{number};
ghost use Rattle.records.specs.Answers.{Accepted};
ghost use Rattle.records.specs.Marks.{row};
ghost use Rattle.records.specs.Record.{mark, is_dated, size};
ghost use Rattle.records.specs.Dossier.{records, scan};
ghost use Rattle.station.specs.InForce.{come};
ghost use Rattle.index.specs.Slots.{short};
ghost use Rattle.index.specs.Holding.{IndexOf};
ghost use Rattle.hours.specs.Filling.{cleared, dated_slot, put_at, hour_at, filled_at};

use records::Mark;

// The slots of FU, AD and MM: the first, and how many.
const FIRST: usize = 22;

const COUNT: usize = 116;

// Empties n slots from slot j on.
fn clear(index: &mut [u16], j: usize, n: usize)
    requires { j + n ≤ length index.old }
    ensures { index.new ≡ cleared index.old j n }
{
    index[j..j + n].fill(0);
}

// The slot of a record of a mark whose kind may have first hours; 0, which is RS's, of any other.
fn slot_of_dated(mark: Mark, s: &[u8]) -> usize
    requires { 1 ≤ row mark }
    ensures { result ≡ dated_slot (row mark) s.now }
{
    let at = records::fields_at(mark);
    match records::kind_of(mark) {
        Mark::FU => index::keys::slot_fu(fields::u8_at(s, at) as usize),
        Mark::AD => index::keys::slot_ad(
            fields::u8_at(s, at) as usize,
            fields::u8_at(s, at + 1) as usize,
            fields::u8_at(s, at + 2) as usize,
        ),
        Mark::MM => index::keys::slot_mm(
            fields::u8_at(s, at) as usize,
            fields::u8_at(s, at + 1) as usize,
        ),
        _ => 0,
    }
}

// A record of such a mark goes into its slot, unless a higher issue is there.
fn put(d: &[u8], index: &mut [u16], at: usize, s: &[u8], mark: Mark)
    requires { (1 ≤ row mark) × (dated_slot (row mark) s.now < length index.old) × (length d.now ≤ 60000) × (at < 60000) }
    ensures { index.new ≡ put_at d.now index.old at s.now (dated_slot (row mark) s.now) }
{
    let j = slot_of_dated(mark, s);
    let issue = (fields::u32_at(s, 2) as u64) + 1;
    let v = index[j];
    let held = index::issue_held(d, v);
    index[j] = index::newer_of(held, issue, v, (at as u16) + 1);
}

// The same of one with a first hour, if that has come. It is short, so that the compiler puts it in line in each arm below.
fn put_if_come(d: &[u8], index: &mut [u16], hour: u32, at: usize, s: &[u8], mark: Mark)
    requires { (1 ≤ row mark) × (dated_slot (row mark) s.now < length index.old) × (length d.now ≤ 60000) × (at < 60000) }
    ensures { index.new ≡ cond (leb (number 6 4 s.now) hour)
        (put_at d.now index.old at s.now (dated_slot (row mark) s.now)) index.old }
{
    if hour < fields::u32_at(s, 6) {
        return;
    }
    put(d, index, at, s, mark);
}

// A record with a first hour is put if that has come, and its length answered. Each mark has an arm of its own: the processor then guesses where the next
// record begins, and needn't wait for this one's mark.
fn put_dated(d: &[u8], index: &mut [u16], hour: u32, at: usize, s: &[u8]) -> usize
    requires { (is_dated (mark s.now) ≡ true) × (dated_slot (mark s.now) s.now < length index.old) × (length d.now ≤ 60000) × (at < 60000) }
    ensures { (result ≡ size (mark s.now)) × (index.new ≡ hour_at hour d.now index.old at s.now) }
{
    if records::is_mark(s, b"AV") {
        put_if_come(d, index, hour, at, s, Mark::AV);
        return records::AV.length;
    }
    if records::is_mark(s, b"MV") {
        put_if_come(d, index, hour, at, s, Mark::MV);
        return records::MV.length;
    }
    put_if_come(d, index, hour, at, s, Mark::FV);
    records::FV.length
}

// One without is put if it is of a kind that may have one: it has come at every hour.
fn put_undated(d: &[u8], index: &mut [u16], at: usize, s: &[u8]) -> usize
    requires { (is_dated (mark s.now) ≡ false) × (1 ≤ mark s.now) × (dated_slot (mark s.now) s.now < length index.old) × (length d.now ≤ 60000)
        × (at < 60000) }
    ensures { (result ≡ size (mark s.now))
        × ((h : ℕ) → index.new ≡ hour_at h d.now index.old at s.now) }
{
    match records::mark_at(s) {
        Mark::AD => {
            put(d, index, at, s, Mark::AD);
            records::AD.length
        }
        Mark::MM => {
            put(d, index, at, s, Mark::MM);
            records::MM.length
        }
        Mark::FU => {
            put(d, index, at, s, Mark::FU);
            records::FU.length
        }
        other => records::length_of(other),
    }
}

// Either; V as second letter tells which.
fn put_record(d: &[u8], index: &mut [u16], hour: u32, at: usize, s: &[u8]) -> usize
    requires { (1 ≤ mark s.now) × (dated_slot (mark s.now) s.now < length index.old) × (length d.now ≤ 60000) × (at < 60000) }
    ensures { (result ≡ size (mark s.now)) × (index.new ≡ hour_at hour d.now index.old at s.now) }
{
    if fields::byte_at(s, 1) == 86 {
        return put_dated(d, index, hour, at, s);
    }
    put_undated(d, index, at, s)
}

// Fills the slots of FU, AD and MM with the records that have come. The search for twins keeps `index::reader::entry_at` for itself, so that the compiler
// puts it in line there.
fn fill_dated(d: &[u8], index: &mut [u16], hour: u32)
    requires { (short ≤ length index.old) × (length d.now ≤ 60000) × (scan 0 (records d.now) ≡ Accepted) }
    ensures { index.new ≡ filled_at hour d.now index.old }
{
    let mut at = 0;
    // a `while`, since records differ in length
    while at < d.len() {
        let rest = &d[at..];
        // never so: it tells the compiler that a first hour's bytes are there
        if rest.len() < records::SHORTEST {
            return;
        }
        at += put_record(d, index, hour, at, rest);
    }
}

// An index of all records becomes that of an hour: the slots of kinds that may have first hours are emptied and filled again with what has come.
pub fn at_hour(d: &[u8], index: &mut [u16], hour: u32)
    requires { IndexOf (records d.now) d.now index.old }
    ensures { IndexOf (come hour (records d.now)) d.now index.new }
{
    clear(index, FIRST, COUNT);
    fill_dated(d, index, hour);
}
