// Whether a record fits the technology. The definitions are in specs/, their laws in proofs/.
#![tactic(auto)]

ghost use Rattle.std.specs.Prelude.{◌≡◌, cond, ◌&&◌, ◌||◌, not, ◌+◌, ◌<◌, ltb, eqb};
ghost use Rattle.fields.specs.Numbers.{number};
ghost use Rattle.records.specs.Table.{RS, FU, MM, thermal, hydro};
ghost use Rattle.records.specs.Record.{mark};
ghost use Rattle.records.specs.Marks.{row};
ghost use Rattle.rules.specs.Fit.{Known, adder_fits, fits};
ghost use Rattle.trials.specs.Trials.{tried_as, valued, value_fits};

use records::Mark;
use rules::level_held;

// A record's length, and whether it fits.
#[derive(Clone, Copy)]
pub struct Tried {
    pub len: usize,
    pub fits: bool,
}

// A field that is used is above 0 where it must be; any other is 0.
fn field_fits(used: bool, positive: bool, x: u32) -> bool
    ensures { result ≡ cond used (not positive || ltb 0 x) (eqb x 0) }
{
    if used { !positive | (0 < x) } else { x == 0 }
}

// RS: what the technology uses is above 0, but for the heats, and the rest is 0.
pub fn rs_fits(t: u8, s: &[u8]) -> bool
    requires { Known t }
    ensures { result ≡ fits t RS s.now }
{
    field_fits((t == 1) | (t == 2), true, fields::u16_at(s, 9) as u32)
        & field_fits(t == 1, false, fields::u32_at(s, 11))
        & field_fits(t == 1, false, fields::u32_at(s, 15))
        & field_fits(t == 2, true, fields::u32_at(s, 19))
        & field_fits(t == 3, true, fields::u32_at(s, 23))
        & field_fits(t == 3, true, fields::u16_at(s, 27) as u32)
        & field_fits((t == 3) | (t == 4), true, fields::u16_at(s, 29) as u32)
}

// The fuel at a place, and the emission behind it: a hydroelectric station has no fuel, and emission is thermal.
fn fuel_fits<const AT: usize>(t: u8, s: &[u8]) -> bool
    requires { AT + 6 < 65536 }
    ensures { result ≡ ((not (eqb t hydro) || eqb (number AT 4 s.now) 0) && (eqb t thermal || eqb (number (AT + 4) 4 s.now) 0)) }
{
    ((t != 4) | (fields::u32_at(s, AT) == 0)) & ((t == 1) | (fields::u32_at(s, AT + 4) == 0))
}

// An adder's cost at a place, and its level behind it: the level is held, and cost 5 is nuclear and level 1.
fn adder_fits<const AT: usize>(t: u8, s: &[u8]) -> bool
    requires { AT < 65536 }
    ensures { result ≡ adder_fits t (number AT 1 s.now) (number (AT + 1) 1 s.now) }
{
    let cost = fields::u8_at(s, AT);
    let level = fields::u8_at(s, AT + 1);
    level_held(t, level) & ((cost != 5) | ((t == 2) & (level == 1)))
}

// Hours for each start, at a place, are thermal.
fn hours_fit<const AT: usize>(t: u8, s: &[u8]) -> bool
    requires { AT < 65536 }
    ensures { result ≡ (eqb t thermal || eqb (number AT 2 s.now) 0) }
{
    (t == 1) | (fields::u16_at(s, AT) == 0)
}

// FU and MM fit by these.
pub fn fu_fits(t: u8, s: &[u8]) -> bool
    requires { Known t }
    ensures { result ≡ fits t FU s.now }
{
    fuel_fits::<7>(t, s)
}

pub fn mm_fits(t: u8, s: &[u8]) -> bool
    requires { Known t }
    ensures { result ≡ fits t MM s.now }
{
    hours_fit::<22>(t, s)
}

// The record at the front, tried against the technology. FV, AV and MV have a first hour before the fields of FU, AD and MM, and AO an owner before AD's.
pub fn tried_at(t: u8, s: &[u8]) -> Tried
    requires { Known t }
    ensures { result ≡ tried_as t (mark s.now) s.now }
{
    let mark = records::mark_at(s);
    let fits = match mark {
        Mark::RS => rs_fits(t, s),
        Mark::HP => t == 1,
        Mark::FU => fu_fits(t, s),
        Mark::AD => adder_fits::<7>(t, s),
        Mark::MM => mm_fits(t, s),
        Mark::HR | Mark::CH | Mark::LC => t == 3,
        Mark::TH => level_held(t, fields::u8_at(s, 7)),
        Mark::FP => t == 4,
        Mark::AO => adder_fits::<8>(t, s),
        Mark::FV => fuel_fits::<11>(t, s),
        Mark::AV => adder_fits::<11>(t, s),
        Mark::MV => hours_fit::<26>(t, s),
        Mark::Unknown | Mark::RQ => true,
    };
    Tried {
        len: records::length_of(mark),
        fits,
    }
}

// Whether a record of a mark is asked what it says.
pub fn is_valued(mark: Mark) -> bool
    ensures { result ≡ valued (row mark) }
{
    matches!(mark, Mark::FU | Mark::MM | Mark::FV | Mark::MV)
}

// Whether what a record of a mark says fits the technology. No record is shorter than its mark's length: cut to that, it tells the compiler that the bytes are
// there.
pub fn value_fits(t: u8, mark: Mark, s: &[u8]) -> bool
    requires { Known t }
    ensures { result ≡ value_fits t (row mark) s.now }
{
    match mark {
        Mark::FV => {
            if s.len() < records::FV.length {
                return fuel_fits::<11>(t, s);
            }
            fuel_fits::<11>(t, &s[..records::FV.length])
        }
        Mark::MV => {
            if s.len() < records::MV.length {
                return hours_fit::<26>(t, s);
            }
            hours_fit::<26>(t, &s[..records::MV.length])
        }
        Mark::FU => fu_fits(t, s),
        Mark::MM => mm_fits(t, s),
        _ => true,
    }
}
