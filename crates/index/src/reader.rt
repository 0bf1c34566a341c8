// The record reader: one record at the front of the rest of a dossier, with its length and slot.
ghost use Rattle.std.specs.Prelude.{◌≡◌, true, false, ◌&&◌, ◌≤◌, leb, length, get_or, Err};
ghost use Rattle.records.specs.Record.{mark};
ghost use Rattle.records.specs.MarkShapes.{rare, begins};
ghost use Rattle.index.specs.declared.Fault.{Fault};
ghost use Rattle.index.specs.Intervals.{is_interval};
ghost use Rattle.index.specs.Entries.{entry_as, reading_as, reading_of};

use crate::slotted::Slotted;
use crate::{Entry, Fault, Reading, Sound};
use records::Mark;
use records::rows::{Ad, Ao, Av, Ch, Fp, Fu, Fv, Hp, Hr, Lc, Mm, Mv, Rq, Rs, Th};

// The entry of a record of mark M.
fn entry_as<M: Slotted>(s: &[u8]) -> Entry
    ensures { result ≡ entry_as M.mark s.now }
{
    Entry {
        len: M::length(),
        slot: M::slot_at(s),
    }
}

// What is read of a rest that begins with mark M. Each mark's own reading is made of it, with its row's numbers as constants.
fn read_as<M: Slotted>(s: &[u8]) -> Reading
    ensures { result ≡ reading_as M.mark s.now }
{
    if s.len() < M::length() {
        return Err(Fault::CutShort);
    }
    if !M::ranges_hold(s) {
        return Err(Fault::OutsideRange);
    }
    let entry = entry_as::<M>(s);
    Ok(if M::is_dated() {
        Sound::Dated(entry)
    } else {
        Sound::Undated(entry)
    })
}

// Of a rest whose mark has a first hour, no key or an owner, or is unknown; RS, of which every dossier has one, is tried before.
fn read_rare(rest: &[u8]) -> Reading
    requires { (2 ≤ length rest.now) × (rare (mark rest.now) ≡ true) × (begins rest.now 82 83 ≡ false) }
    ensures { result ≡ reading_of rest.now }
{
    if records::is_mark(rest, b"LC") {
        return read_as::<Lc>(rest);
    }
    if records::is_mark(rest, b"AO") {
        return read_as::<Ao>(rest);
    }
    if records::is_mark(rest, b"FV") {
        return read_as::<Fv>(rest);
    }
    if records::is_mark(rest, b"AV") {
        return read_as::<Av>(rest);
    }
    if records::is_mark(rest, b"MV") {
        return read_as::<Mv>(rest);
    }
    Err(Fault::UnknownMark)
}

// The entry of the same.
fn entry_rare(rest: &[u8]) -> Entry
    requires { rare (mark rest.now) ≡ true }
    ensures { result ≡ entry_as (mark rest.now) rest.now }
{
    if records::is_mark(rest, b"RS") {
        return entry_as::<Rs>(rest);
    }
    if records::is_mark(rest, b"LC") {
        return entry_as::<Lc>(rest);
    }
    if records::is_mark(rest, b"AO") {
        return entry_as::<Ao>(rest);
    }
    if records::is_mark(rest, b"FV") {
        return entry_as::<Fv>(rest);
    }
    if records::is_mark(rest, b"AV") {
        return entry_as::<Av>(rest);
    }
    if records::is_mark(rest, b"MV") {
        return entry_as::<Mv>(rest);
    }
    Entry {
        len: records::UNKNOWN.length,
        slot: 0,
    }
}

// Whether a rest begins with a mark, byte by byte: CH, the commonest, is tried by itself so, before the others, which the compiler tries together.
pub fn begins_with(rest: &[u8], m: &[u8; 2]) -> bool
    ensures { result ≡ begins rest.now (get_or m.now 0 0) (get_or m.now 1 0) }
{
    (fields::byte_at(rest, 0) == m[0]) & (fields::byte_at(rest, 1) == m[1])
}

// Whether a CH begins a rest.
pub fn begins_interval(s: &[u8]) -> bool
    ensures { result ≡ leb 2 (length s.now) && begins s.now 67 72 }
{
    if s.len() < 2 {
        return false;
    }
    begins_with(s, b"CH")
}

// The fault of a CH that has one: it is cut off, or out of range.
pub fn interval_fault(rest: &[u8]) -> Fault
    requires { (2 ≤ length rest.now) × (begins rest.now 67 72 ≡ true) × (is_interval rest.now ≡ false) }
    ensures { reading_of rest.now ≡ Err result }
{
    if rest.len() < records::CH.length {
        return Fault::CutShort;
    }
    Fault::OutsideRange
}

// The fault that a rest has. It is worked out a second time, for the pass, which then carries no fault past the records without one.
pub fn fault_of(faulty: &[u8]) -> Fault
    ensures { (f : Fault) → reading_of faulty.now ≡ Err f → result ≡ f }
{
    if faulty.len() < 2 {
        return Fault::CutShort;
    }
    let mark = records::mark_at(faulty);
    if mark == Mark::Unknown {
        return Fault::UnknownMark;
    }
    if faulty.len() < records::length_of(mark) {
        return Fault::CutShort;
    }
    Fault::OutsideRange
}

// The record reader: the rest of a dossier, starting at the cursor, is tried for its mark, its length and its ranges.
pub fn read(rest: &[u8]) -> Reading
    ensures { result ≡ reading_of rest.now }
{
    if rest.len() < 2 {
        return Err(Fault::CutShort);
    }
    if begins_with(rest, b"CH") {
        return read_as::<Ch>(rest);
    }
    if records::is_mark(rest, b"HP") {
        return read_as::<Hp>(rest);
    }
    if records::is_mark(rest, b"TH") {
        return read_as::<Th>(rest);
    }
    if records::is_mark(rest, b"HR") {
        return read_as::<Hr>(rest);
    }
    if records::is_mark(rest, b"FP") {
        return read_as::<Fp>(rest);
    }
    if records::is_mark(rest, b"FU") {
        return read_as::<Fu>(rest);
    }
    if records::is_mark(rest, b"AD") {
        return read_as::<Ad>(rest);
    }
    if records::is_mark(rest, b"MM") {
        return read_as::<Mm>(rest);
    }
    if records::is_mark(rest, b"RQ") {
        return read_as::<Rq>(rest);
    }
    if records::is_mark(rest, b"RS") {
        return read_as::<Rs>(rest);
    }
    read_rare(rest)
}

// The entry of a record that is known to be without fault.
pub fn entry_at(rest: &[u8]) -> Entry
    ensures { result ≡ entry_as (mark rest.now) rest.now }
{
    if records::is_mark(rest, b"CH") {
        return entry_as::<Ch>(rest);
    }
    if records::is_mark(rest, b"HP") {
        return entry_as::<Hp>(rest);
    }
    if records::is_mark(rest, b"TH") {
        return entry_as::<Th>(rest);
    }
    if records::is_mark(rest, b"HR") {
        return entry_as::<Hr>(rest);
    }
    if records::is_mark(rest, b"FP") {
        return entry_as::<Fp>(rest);
    }
    if records::is_mark(rest, b"FU") {
        return entry_as::<Fu>(rest);
    }
    if records::is_mark(rest, b"AD") {
        return entry_as::<Ad>(rest);
    }
    if records::is_mark(rest, b"MM") {
        return entry_as::<Mm>(rest);
    }
    if records::is_mark(rest, b"RQ") {
        return entry_as::<Rq>(rest);
    }
    entry_rare(rest)
}
