// The current records of a dossier: it is read once, for 13 and 1 to 4, and its index then gives each current record as a part of its bytes.
#![tactic(auto)]

ghost use Rattle.std.specs.Prelude.{◌≡◌, true, false, [], ◌∷◌, ◌+◌, ◌*◌, ◌/◌, ◌%◌, ◌^◌, ◌<◌, ◌≤◌, length, get_or, IfOk};
ghost use Rattle.fields.specs.Numbers.{number};
ghost use Rattle.records.specs.Answers.{Accepted, refusal_of};
ghost use Rattle.records.specs.Table.{RS, HP, FU, AD, MM, RQ, HR, TH, FP, LC, AO, kinds};
ghost use Rattle.records.specs.Marks.{row};
ghost use Rattle.records.specs.Record.{mark, kind_of, key_width};
ghost use Rattle.records.specs.MarkShapes.{body};
ghost use Rattle.records.specs.Dossier.{records, scan};
ghost use Rattle.station.specs.Current.{current, readable, lookup_bytes};
ghost use Rattle.index.specs.Slots.{slot, short, narrow, wide};
ghost use Rattle.index.specs.Intervals.{HeldIn};
ghost use Rattle.lookup.specs.Parts.{too_long, fits_short, slots_for, held, scanned, part_bytes, part_at, body_at};
ghost use Rattle.lookup.specs.Parts.{RecordIn, BodyIn, record_part, current_part, lookup_part, Empty, Whole, Indexed, Complete, UpTo};
ghost use Rattle.station.specs.InForce.{Undated};

use index::{Passed, keys};
use records::{Answer, Mark, Refusal};

// The longest dossier.
pub const LONGEST: usize = 60000;

// What a longer one draws.
const TOO_LONG: Refusal = Refusal {
    number: 13,
    place: 0,
};

// A part of a dossier, by its start and length.
#[derive(Clone, Copy)]
pub struct Part {
    pub start: usize,
    pub length: usize,
}

// The empty part of a record that isn't there: no `Option`, since other languages get start and length, 0 and 0 for none.
const NOWHERE: Part = Part {
    start: 0,
    length: 0,
};

// How long an index a dossier is read with first.
#[derive(Clone, Copy)]
pub enum Room {
    Short,
    Narrow,
    Wide,
}

// What an RS at the front tells of the station, or a record of the first 600 bytes: HP is a thermal one's, FP a hydroelectric one's, CH and LC are a
// battery's, which may have neither. So a dossier of up to 600 bytes without them wants a short index; to clear a longer one would cost more than its
// records do. In a longer dossier that costs little, while a wrong guess costs a second pass.
fn guess(d: &[u8]) -> Room {
    if records::is_mark(d, b"RS") {
        match fields::u8_at(d, 6) {
            3 => {}
            4 => return Room::Wide,
            _ => return Room::Short,
        }
    }
    let end = d.len().min(600);
    let mut at = 0;
    // a `while`: where the next record begins is known only here, by the mark
    while at < end {
        let mark = records::mark_at(&d[at..]);
        match mark {
            Mark::FP => return Room::Wide,
            Mark::CH | Mark::LC => return Room::Narrow,
            Mark::HP => return Room::Short,
            _ => {}
        }
        at += records::length_of(mark);
    }
    if d.len() <= 600 {
        Room::Short
    } else {
        Room::Narrow
    }
}

// The way in for every call: 13, and how long an index the dossier is likely to want. The guess decides how soon an answer comes and never which: a record
// without a slot is noticed, and the dossier read again.
pub fn room_for(d: &[u8]) -> Result<Room, Refusal>
    ensures { refusal_of result ≡ too_long d.now }
{
    if LONGEST < d.len() {
        return Err(TOO_LONG);
    }
    Ok(guess(d))
}

// Whether a short index has a slot for every record: none is of CH, FP or LC.
pub fn fits_short(d: &[u8]) -> bool
    requires { length d.now ≤ 60000 }
    ensures { result ≡ fits_short d.now }
{
    let mut at = 0;
    // a `while`, as in `guess`
    while at < d.len() {
        let k = records::mark_at(&d[at..]);
        if matches!(k, Mark::CH | Mark::FP | Mark::LC) {
            return false;
        }
        at += records::length_of(k);
    }
    true
}

// The first part of it: 13, 1 to 3, the index, and the sums of the charging week.
pub fn scan(d: &[u8], index: &mut [u16], sums: &mut [u64]) -> Passed
    requires { Empty index.old × (sums.old ≡ 0 ∷ 0 ∷ []) }
    ensures pass { result ≡ scanned (length index.old) d.now }
    ensures read { IfOk result (λ s. Whole d.now index.new × UpTo d.now s.top × HeldIn d.now index.new sums.new
        × (s.dated ≡ false → Undated d.now)) }
{
    if LONGEST < d.len() {
        return Err(TOO_LONG);
    }
    index::pass(d, index, sums)
}

// The index alone, of a dossier that is known to draw none of 13 and 1 to 3.
pub fn fill(d: &[u8], index: &mut [u16])
    requires { Empty index.old × (length d.now ≤ 60000) × (scan 0 (records d.now) ≡ Accepted) }
    ensures { Whole d.now index.new }
{
    let mut sums = [0u64; 2];
    let _ = index::pass(d, index, &mut sums);
}

// A dossier is read: 13, 1 to 4, its index, and the sums. `judge` does the same by itself: the search for twins, called from two functions, keeps
// a frame of its own, and its tables cost nothing where every issue rose.
pub fn open(d: &[u8], index: &mut [u16], sums: &mut [u64]) -> Answer
    requires { Empty index.old × (sums.old ≡ 0 ∷ 0 ∷ []) }
    ensures { (result ≡ readable d.now)
        × (result ≡ Accepted → Whole d.now index.new × HeldIn d.now index.new sums.new) }
{
    let pass = scan(d, index, sums)?;
    if pass.rising & (pass.top < index.len()) {
        return Ok(());
    }
    twins::first_twin(d)
}

// The bytes of a part.
fn bytes_of(d: &[u8], part: Part) -> &[u8]
    requires { part.start + part.length ≤ length d.now }
    ensures { result.now ≡ part_bytes d.now part }
{
    let start = part.start;
    let end = start + part.length;
    &d[start..end]
}

// The part of the dossier where the record of slot j stands, empty if there is none.
pub fn part_at<'a>(d: &'a [u8], index: &[u16], j: usize, len: usize) -> &'a [u8]
    requires { (j < length index.now) × (len < 65536) }
    ensures { result.now ≡ part_at d.now index.now j len }
{
    let v = index[j] as usize;
    if v == 0 {
        return &d[..0];
    }
    d.get(v - 1..v - 1 + len).unwrap_or(&d[..0])
}

// The record of slot j, empty if there is none; it is known to lie in the dossier, which then isn't asked. Of a kind that may have a first hour it is
// what the record says where its fields lie as its kind's do: V as second letter tells that a first hour stands before them.
fn held_at<'a, const DATABLE: bool>(d: &'a [u8], index: &[u16], j: usize, len: usize) -> &'a [u8]
    requires { (j < length index.now) × (DATABLE ≡ false → RecordIn d.now (get_or index.now j 0) len)
        × (DATABLE ≡ true → BodyIn d.now (get_or index.now j 0) len) }
    ensures record { DATABLE ≡ false → result.now ≡ part_at d.now index.now j len }
    ensures body { DATABLE ≡ true → result.now ≡ body_at d.now index.now j len }
{
    let v = index[j] as usize;
    if v == 0 {
        return &d[..0];
    }
    let start = v - 1 + lists::choose(DATABLE && d[v] == 86, 4, 0);
    &d[start..start + len]
}

// The current RS.
pub fn rs<'a>(d: &'a [u8], index: &[u16]) -> &'a [u8]
    requires { Indexed d.now index.now }
    ensures { result.now ≡ current RS 0 (records d.now) }
{
    held_at::<false>(d, index, 0, records::RS.length)
}

// The current HP of a point.
pub fn hp<'a>(d: &'a [u8], index: &[u16], n: usize) -> &'a [u8]
    requires { Indexed d.now index.now × (1 ≤ n) × (n ≤ 21) }
    ensures { result.now ≡ current HP n (records d.now) }
{
    held_at::<false>(d, index, keys::slot_hp(n), records::HP.length)
}

// What the current FU of a profile says, as an FU has it: a first hour lies before it.
pub fn fu<'a>(d: &'a [u8], index: &[u16], p: usize) -> &'a [u8]
    requires { Indexed d.now index.now × (1 ≤ p) × (p ≤ 4) }
    ensures { result.now ≡ body (current FU p (held d.now index.now)) }
{
    held_at::<true>(d, index, keys::slot_fu(p), records::FU.length)
}

// The same of the current AD of a profile, cost and level.
pub fn ad<'a>(d: &'a [u8], index: &[u16], p: usize, c: usize, v: usize) -> &'a [u8]
    requires { Indexed d.now index.now × (1 ≤ p) × (p ≤ 4) × (1 ≤ c) × (c ≤ 5) × (1 ≤ v) × (v ≤ 4) }
    ensures { result.now ≡ body (current AD (p * 65536 + c * 256 + v) (held d.now index.now)) }
{
    held_at::<true>(d, index, keys::slot_ad(p, c, v), records::AD.length)
}

// The current AO of an owner, profile, cost and level, which has no first hour.
pub fn ao<'a>(d: &'a [u8], index: &[u16], o: usize, p: usize, c: usize, v: usize) -> &'a [u8]
    requires { Indexed d.now index.now × (1 ≤ o) × (o ≤ 2) × (1 ≤ p) × (p ≤ 4) × (1 ≤ c) × (c ≤ 5) × (1 ≤ v) × (v ≤ 4) }
    ensures { result.now ≡ current AO (o * 16777216 + p * 65536 + c * 256 + v) (held d.now index.now) }
{
    held_at::<false>(d, index, keys::slot_ao(o, p, c, v), records::AO.length)
}

// The same of the current MM of a profile and item.
pub fn mm<'a>(d: &'a [u8], index: &[u16], p: usize, j: usize) -> &'a [u8]
    requires { Indexed d.now index.now × (1 ≤ p) × (p ≤ 4) × (1 ≤ j) × (j ≤ 8) }
    ensures { result.now ≡ body (current MM (p * 256 + j) (held d.now index.now)) }
{
    held_at::<true>(d, index, keys::slot_mm(p, j), records::MM.length)
}

// The current RQ of a request.
pub fn rq<'a>(d: &'a [u8], index: &[u16], n: usize) -> &'a [u8]
    requires { Indexed d.now index.now × (1 ≤ n) × (n ≤ 16) }
    ensures { result.now ≡ current RQ n (records d.now) }
{
    held_at::<false>(d, index, keys::slot_rq(n), records::RQ.length)
}

// The current HR of an hour of the window.
pub fn hr<'a>(d: &'a [u8], index: &[u16], n: usize) -> &'a [u8]
    requires { Indexed d.now index.now × (1 ≤ n) × (n ≤ 168) }
    ensures { result.now ≡ current HR n (records d.now) }
{
    held_at::<false>(d, index, keys::slot_hr(n), records::HR.length)
}

// The current TH of a condition and level.
pub fn th<'a>(d: &'a [u8], index: &[u16], c: usize, v: usize) -> &'a [u8]
    requires { Indexed d.now index.now × (1 ≤ c) × (c ≤ 3) × (1 ≤ v) × (v ≤ 4) }
    ensures { result.now ≡ current TH (c * 256 + v) (records d.now) }
{
    held_at::<false>(d, index, keys::slot_th(c, v), records::TH.length)
}

// The current LC.
pub fn lc<'a>(d: &'a [u8], index: &[u16]) -> &'a [u8]
    requires { Indexed d.now index.now × (narrow ≤ length index.now) }
    ensures { result.now ≡ current LC 0 (records d.now) }
{
    held_at::<false>(d, index, keys::slot_lc(), records::LC.length)
}

// The current FP of a place, through an index of every record; a place without a slot there has none.
pub fn fp<'a>(d: &'a [u8], index: &[u16], n: usize) -> &'a [u8]
    requires { Indexed d.now index.now × Complete d.now index.now × (1 ≤ n) × (n ≤ 4000) }
    ensures { result.now ≡ current FP n (records d.now) }
{
    let j = keys::slot_fp(n);
    if index.len() <= j {
        return &d[..0];
    }
    held_at::<false>(d, index, j, records::FP.length)
}

// The slot of a kind and key; the number has no more bytes than its keys have.
pub fn slot_of(kind: Mark, n: usize) -> usize
    requires { (n < 256 ^ key_width (row kind)) × (row kind < kinds) }
    ensures { result ≡ slot (row kind) n }
{
    match kind {
        Mark::HP => keys::slot_hp(n),
        Mark::FU => keys::slot_fu(n),
        Mark::AD => keys::slot_ad(n / 65536, n / 256 % 256, n % 256),
        Mark::MM => keys::slot_mm(n / 256, n % 256),
        Mark::RQ => keys::slot_rq(n),
        Mark::HR => keys::slot_hr(n),
        Mark::CH => keys::slot_ch(n),
        Mark::TH => keys::slot_th(n / 256, n % 256),
        Mark::FP => keys::slot_fp(n),
        Mark::LC => keys::slot_lc(),
        Mark::AO => keys::slot_ao(n / 16777216, n / 65536 % 256, n / 256 % 256, n % 256),
        // no kind has a first hour, and RS no key
        Mark::Unknown | Mark::RS | Mark::FV | Mark::AV | Mark::MV => 0,
    }
}

// The whole record of a slot of value v.
fn record_part(d: &[u8], v: u16) -> Part
    ensures { result ≡ record_part d.now v }
{
    let q = v as usize;
    if (q == 0) | (d.len() < q) {
        return NOWHERE;
    }
    let start = q - 1;
    let length = records::length_of(records::mark_at(&d[start..]));
    Part { start, length }
}

// Where the current record of a kind and key stands; a number that is no key has none.
fn place_of(d: &[u8], index: &[u16], kind: Mark, n: usize) -> Part
    requires { Whole d.now index.now × (row kind < kinds) × (slots_for (row kind) ≤ length index.now) }
    ensures { result ≡ current_part (row kind) n (records d.now) }
{
    if records::in_key(kind, n) {
        return record_part(d, index[slot_of(kind, n)]);
    }
    NOWHERE
}

// The lookup by kind and key number, as start and length, with an empty index for it.
fn part_in(d: &[u8], index: &mut [u16], kind: Mark, n: usize) -> Part
    requires { Empty index.old × (row kind < kinds) × (slots_for (row kind) ≤ length index.old) }
    ensures { result ≡ lookup_part d.now (row kind) n }
{
    let mut sums = [0u64; 2];
    match open(d, index, &mut sums) {
        Ok(()) => place_of(d, index, kind, n),
        Err(_) => NOWHERE,
    }
}

// How many slots an index has that holds those of a kind.
fn slots_for(kind: Mark) -> usize
    ensures { result ≡ slots_for (row kind) }
{
    match kind {
        Mark::FP => index::WIDE,
        Mark::CH | Mark::LC => index::NARROW,
        _ => index::SHORT,
    }
}

// The same with an index of so many slots, and with the widest where these are not those of the kind.
fn lookup_part_in<const SLOTS: usize>(d: &[u8], kind: Mark, n: usize) -> Part
    requires { (short ≤ SLOTS) × (SLOTS ≤ wide) × (row kind < kinds) }
    ensures { result ≡ lookup_part d.now (row kind) n }
{
    if slots_for(kind) <= SLOTS {
        let mut index = [0u16; SLOTS];
        return part_in(d, &mut index, kind, n);
    }
    let mut widest = [0u16; index::WIDE];
    part_in(d, &mut widest, kind, n)
}

// The same of a dossier.
fn lookup_part(d: &[u8], kind: Mark, n: usize) -> Part
    requires { row kind < kinds }
    ensures { result ≡ lookup_part d.now (row kind) n }
{
    let Ok(room) = room_for(d) else {
        return NOWHERE;
    };
    match room {
        Room::Short => lookup_part_in::<{ index::SHORT }>(d, kind, n),
        Room::Narrow => lookup_part_in::<{ index::NARROW }>(d, kind, n),
        Room::Wide => lookup_part_in::<{ index::WIDE }>(d, kind, n),
    }
}

// A key's bytes as a number.
fn key_number(key: &[u8]) -> usize
    requires { length key.now ≤ 4 }
    ensures { result ≡ number 0 (length key.now) key.now }
{
    let mut n = 0;
    for byte in key {
        n = n * 256 + usize::from(*byte);
    }
    n
}

// The lookup: the part of the dossier that holds the current record of a mark and key is handed back, be it of that mark or of the one with or without a
// first hour that shares its keys.
pub fn current<'a>(d: &'a [u8], letters: &[u8; 2], key: &[u8]) -> &'a [u8]
    ensures { result.now ≡ lookup_bytes d.now letters.now key.now }
{
    let mark = records::mark_at(letters);
    let m = records::mark_shape(mark);
    if key.len() == m.width {
        return bytes_of(d, lookup_part(d, records::kind_of(mark), key_number(key)));
    }
    &d[..0]
}

// The lookup for other languages: the mark as one number, its first letter high, and the key's bytes as one number.
pub fn current_by_number(d: &[u8], letters: u16, key: u32) -> Part
    ensures { result ≡ lookup_part d.now (kind_of (mark (letters / 256 ∷ letters % 256 ∷ []))) key }
{
    let m = letters.to_be_bytes();
    lookup_part(d, records::kind_of(records::mark_at(&m)), key as usize)
}
