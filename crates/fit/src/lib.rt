// 6: whether the records that count fit the technology, told by the index, and by what FU and MM say. The definitions are in specs/, their laws in proofs/.
#![tactic(auto)]

ghost use Rattle.std.specs.Prelude.{◌≡◌, true, false, ◌&&◌, ◌||◌, eqb, ◌+◌, ◌*◌, ◌^◌, ◌<◌, ◌≤◌, length};
ghost use Rattle.fields.specs.Numbers.{number};
ghost use Rattle.records.specs.Answers.{Accepted};
ghost use Rattle.lists.specs.Tests.{all_below};
ghost use Rattle.records.specs.Table.{thermal, nuclear, RS};
ghost use Rattle.records.specs.Record.{mark, is_dated, size};
ghost use Rattle.index.specs.Slots.{short, slot_at, slots_empty};
ghost use Rattle.records.specs.Dossier.{records, scan};
ghost use Rattle.station.specs.Current.{readable};
ghost use Rattle.lookup.specs.Parts.{Whole, Complete};
ghost use Rattle.station.specs.InForce.{Undated};
ghost use Rattle.rules.specs.Fit.{Known, fits, unfit};
ghost use Rattle.fit.specs.BySlots.{fourths_empty, points_fit, items_fit, profiles_fit, level_fits, own_level_fits, owners_fit};
ghost use Rattle.fit.specs.BySlots.{priced_fit, slots_fit, values_fit, not_fit};
ghost use Rattle.trials.specs.Trials.{KeysFit};

use index::slots_empty;
use records::{Answer, Refusal};
use rules::level_held;
use trials::{fu_fits, mm_fits, rs_fits, tried_at, value_fits};

// Whether RS of a thermal station fits: the commonest one is told sooner by what it doesn't use.
fn rs_thermal(s: &[u8]) -> bool
    ensures { result ≡ fits thermal RS s.now }
{
    (0 < fields::u16_at(s, 9))
        & (fields::u32_at(s, 19) == 0)
        & (fields::u32_at(s, 23) == 0)
        & (fields::u16_at(s, 27) == 0)
        & (fields::u16_at(s, 29) == 0)
}

// The current RS.
fn station_fits(t: u8, rs: &[u8]) -> bool
    requires { Known t }
    ensures { result ≡ fits t RS rs.now }
{
    if t == 1 {
        return rs_thermal(rs);
    }
    rs_fits(t, rs)
}

// Whether n slots are empty, every fourth from slot j on. Nothing is asked of each: `all` would branch at every slot.
fn fourths_empty(index: &[u16], j: usize, n: usize) -> bool
    requires { j + 4 * n ≤ length index.now + 3 }
    ensures { result ≡ fourths_empty index.now j n }
{
    let mut any = 0;
    for i in 0..n {
        any |= index[j + 4 * i];
    }
    any == 0
}

// Whether AD and TH of a level are there only where it is held.
fn level_fits(index: &[u16], t: u8, v: u8) -> bool
    requires { (short ≤ length index.now) × (v ≤ 4) }
    ensures { result ≡ level_fits t index.now v }
{
    if level_held(t, v) {
        return true;
    }
    let j = v as usize;
    fourths_empty(index, 25 + j, 20) & fourths_empty(index, 153 + j, 3)
}

// Whether adders of cost 5 are there at a nuclear station alone: each of some profiles has four slots for them, those of the first begin at slot j.
fn prorated_fit(index: &[u16], t: u8, j: usize, profiles: usize) -> bool
    requires { j + 20 * profiles ≤ length index.now + 16 }
    ensures { result ≡ (eqb t nuclear || all_below profiles (λ p. slots_empty index.now (j + 20 * p) 4)) }
{
    if t == 2 {
        return true;
    }
    (0..profiles).all(|p| slots_empty(index, j + 20 * p, 4))
}

// Whether the items of a profile fit; empty slots tell at once that it has none.
fn items_fit(d: &[u8], index: &[u16], t: u8, p: usize) -> bool
    requires { Whole d.now index.now × Undated d.now × Known t × (1 ≤ p) × (p ≤ 4) }
    ensures { result ≡ items_fit t d.now p }
{
    if slots_empty(index, index::keys::slot_mm(p, 1), 8) {
        return true;
    }
    (1..9).all(|j| mm_fits(t, lookup::mm(d, index, p, j)))
}

// Whether FU and MM of every profile fit.
fn profiles_fit(d: &[u8], index: &[u16], t: u8) -> bool
    requires { Whole d.now index.now × Undated d.now × Known t }
    ensures { result ≡ profiles_fit t d.now }
{
    if t == 1 {
        return true;
    }
    (1..5).all(|p| fu_fits(t, lookup::fu(d, index, p)) && items_fit(d, index, t, p))
}

// Whether HP is there at a thermal station alone.
fn points_fit(index: &[u16], t: u8) -> bool
    requires { short ≤ length index.now }
    ensures { result ≡ points_fit t index.now }
{
    if t == 1 {
        return true;
    }
    slots_empty(index, 1, 21)
}

// Whether AO of a level, of either owner, is there only where it is held.
fn own_level_fits(index: &[u16], t: u8, v: u8) -> bool
    requires { (short ≤ length index.now) × (v ≤ 4) }
    ensures { result ≡ own_level_fits t index.now v }
{
    if level_held(t, v) {
        return true;
    }
    fourths_empty(index, 333 + (v as usize), 40)
}

// Whether AO fits. The highest slot of a record tells at once that there is none, and else mostly empty slots do.
fn owners_fit(index: &[u16], t: u8, top: usize) -> bool
    requires { short ≤ length index.now }
    ensures { result ≡ owners_fit t index.now top }
{
    if top < 334 {
        return true;
    }
    if slots_empty(index, 334, 160) {
        return true;
    }
    (1..5).all(|v| own_level_fits(index, t, v)) & prorated_fit(index, t, 350, 8)
}

// Whether HR, CH and LC are there at storage alone; the highest slot of a record tells at once that none is, or that CH and LC are not. A short index does
// not tell.
fn priced_fit(index: &[u16], t: u8, top: usize) -> bool
    requires { short ≤ length index.now }
    ensures { result ≡ priced_fit t index.now top }
{
    if (top < 166) | (t == 3) {
        return true;
    }
    if !slots_empty(index, 166, 168) {
        return false;
    }
    if top < index::SHORT {
        return true;
    }
    if index.len() < index::NARROW {
        return false;
    }
    slots_empty(index, index::SHORT, 2017)
}

// Whether both hold; mostly the highest slot of a record tells at once that there is none of these.
fn later_fit(index: &[u16], t: u8, top: usize) -> bool
    requires { short ≤ length index.now }
    ensures { result ≡ (owners_fit t index.now top && priced_fit t index.now top) }
{
    if top < 166 {
        return true;
    }
    owners_fit(index, t, top) & priced_fit(index, t, top)
}

// Whether every record that counts fits, FU and MM aside. An index has slots for FP where there is one, and only a hydroelectric station may have it. The
// compiler makes four tests of levels 1 to 4, of 1..=4 it would make a loop.
fn slots_fit(index: &[u16], rs: &[u8], t: u8, top: usize) -> bool
    requires { (short ≤ length index.now) × Known t }
    ensures { result ≡ slots_fit t index.now rs.now top }
{
    if (t != 4) & (index::NARROW < index.len()) {
        return false;
    }
    station_fits(t, rs)
        & points_fit(index, t)
        & (1..5).all(|v| level_fits(index, t, v))
        & prorated_fit(index, t, 42, 4)
        & later_fit(index, t, top)
}

// The same where it is worth asking. It has one caller, so that the compiler puts it in line there.
pub fn slots_tell(index: &[u16], rs: &[u8], t: u8, top: usize, worth: bool) -> bool
    requires { (short ≤ length index.now) × Known t }
    ensures { result ≡ (worth && slots_fit t index.now rs.now top) }
{
    worth && slots_fit(index, rs, t, top)
}

// Whether what all FU and MM say fits, with a first hour or without, whether they count or not.
pub fn values_fit(d: &[u8], t: u8) -> bool
    requires { (scan 0 (records d.now) ≡ Accepted) × Known t }
    ensures { result ≡ values_fit t (records d.now) }
{
    if t == 1 {
        return true;
    }
    let mut at = 0;
    // a `while`, since records differ in length
    while at < d.len() {
        let rest = &d[at..];
        let mark = records::mark_at(rest);
        if !value_fits(t, mark, rest) {
            return false;
        }
        at += records::length_of(mark);
    }
    true
}

// The key of the record at the front of s, as a number.
fn key_at(s: &[u8], width: usize) -> usize
    requires { width ≤ 4 }
    ensures { (result ≡ number 6 width s.now) × (result < 256 ^ width) }
{
    let mut key = 0;
    for i in 0..width {
        key = key * 256 + (fields::byte_at(s, 6 + i) as usize);
    }
    key
}

// Whether the record at the front of s is current and does not fit. The search for twins keeps `entry_at` for itself, so that the compiler
// puts it in line there.
fn not_fit(d: &[u8], index: &[u16], s: &[u8], fits: bool) -> bool
    requires { (slot_at (mark s.now) s.now < length index.now) × (size (mark s.now) < 65536) × (is_dated (mark s.now) ≡ false) }
    ensures { result ≡ not_fit d.now index.now s.now fits }
{
    if fits {
        return false;
    }
    let mark = records::mark_at(s);
    let shape = records::mark_shape(mark);
    let slot = lookup::slot_of(mark, key_at(s, shape.width));
    let current = lookup::part_at(d, index, slot, shape.length);
    fields::u32_at(s, 2) == fields::u32_at(current, 2)
}

// The first record that is current and does not fit.
fn first_unfit(d: &[u8], index: &[u16], t: u8) -> Answer
    requires { Whole d.now index.now × Complete d.now index.now × Undated d.now × Known t }
    ensures { result ≡ unfit t (records d.now) }
{
    let mut at = 0;
    // a `while`, since records differ in length
    while at < d.len() {
        let rest = &d[at..];
        let f = tried_at(t, rest);
        if not_fit(d, index, rest, f.fits) {
            return Err(Refusal {
                number: 6,
                place: at,
            });
        }
        at += f.len;
    }
    Ok(())
}

// 6, where no record has a first hour. Most dossiers have no unfit record, which the index tells.
pub fn unfit_of(d: &[u8], index: &[u16], t: u8, slots: bool) -> Answer
    requires { Whole d.now index.now × Complete d.now index.now × Undated d.now × (readable d.now ≡ Accepted) × Known t
        × (slots ≡ true → KeysFit t (records d.now)) }
    ensures { result ≡ unfit t (records d.now) }
{
    if slots && profiles_fit(d, index, t) {
        return Ok(());
    }
    first_unfit(d, index, t)
}
