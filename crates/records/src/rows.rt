// What code knows of each mark: its row of the table, and the ranges of its records. A test of ranges has no branch: it joins its parts by `&`.
#![tactic(auto, using(crate::proofs::Record::sizes))]

ghost use Rattle.std.specs.Prelude.{◌≡◌, ℕ, ◌+◌, ◌<◌, ◌≤◌};
ghost use Rattle.lists.specs.Tests.{between};
ghost use Rattle.fields.specs.Numbers.{number, biased};
ghost use Rattle.records.specs.Table;
ghost use Rattle.records.specs.Record.{size, ranges_hold};
ghost use Rattle.records.specs.MarkShapes.{fields_hold};

use crate::{HIGHEST_PRICE, LOWEST_PRICE, in_field};

// A mark that is known when the program is made.
pub trait Row {
    // its place in the table
    ghost mark: { ℕ };

    // The whole length of its records.
    fn length() -> usize
        ensures { result ≡ size mark };

    // Whether the fields of a record are in their ranges.
    fn ranges_hold(s: &[u8]) -> bool
        ensures { result ≡ ranges_hold mark s.now };
}

// Whether a price, held plus 2^31, is in its range.
fn price(s: &[u8], at: usize) -> bool
    requires { at + 2 < 65536 }
    ensures { result ≡ between 2147283648 2147683648 (biased (number at 4 s.now)) }
{
    let x = fields::biased(fields::u32_at(s, at)) as u64;
    (LOWEST_PRICE..=HIGHEST_PRICE).contains(&x)
}

// The ranges of FU, which are FV's too, wherever the fields begin.
fn fuel_ranges<const AT: usize>(s: &[u8]) -> bool
    requires { AT ≤ 10 }
    ensures { result ≡ fields_hold Table.FU AT s.now }
{
    in_field(crate::FU, 0, fields::u8_at(s, AT) as usize)
        & (fields::u32_at(s, AT + 1) <= 400000000)
        & (fields::u32_at(s, AT + 5) <= 400000000)
}

// The ranges of AD, which are AV's too, and AO's behind the owner.
fn adder_ranges<const AT: usize>(s: &[u8]) -> bool
    requires { AT ≤ 10 }
    ensures { result ≡ fields_hold Table.AD AT s.now }
{
    in_field(crate::AD, 0, fields::u8_at(s, AT) as usize)
        & in_field(crate::AD, 1, fields::u8_at(s, AT + 1) as usize)
        & in_field(crate::AD, 2, fields::u8_at(s, AT + 2) as usize)
        & (fields::u64_at(s, AT + 3) <= 1000000000000)
}

// The ranges of MM, which are MV's too.
fn maintenance_ranges<const AT: usize>(s: &[u8]) -> bool
    requires { AT ≤ 10 }
    ensures { result ≡ fields_hold Table.MM AT s.now }
{
    in_field(crate::MM, 0, fields::u8_at(s, AT) as usize)
        & in_field(crate::MM, 1, fields::u8_at(s, AT + 1) as usize)
        & (fields::u64_at(s, AT + 2) <= 100000000000)
        & (1..=20000).contains(&fields::u16_at(s, AT + 10))
        & (1..=1000000).contains(&fields::u32_at(s, AT + 12))
        & (fields::u16_at(s, AT + 16) <= 10000)
}

// RS
pub struct Rs;

impl Row for Rs {
    ghost mark = { Table.RS };

    fn length() -> usize {
        crate::RS.length
    }

    fn ranges_hold(s: &[u8]) -> bool {
        let technology = fields::u8_at(s, 6);
        let performance = fields::u16_at(s, 9);
        let efficiency = fields::u16_at(s, 27);
        let window = fields::u16_at(s, 29);
        (1..=4).contains(&technology)
            & (1..=20000).contains(&fields::u16_at(s, 7))
            & ((performance == 0) | (500..=2000).contains(&performance))
            & (fields::u32_at(s, 11) <= 20000000)
            & (fields::u32_at(s, 15) <= 20000000)
            & (fields::u32_at(s, 19) <= 1000000)
            & (fields::u32_at(s, 23) <= 1000000)
            & ((efficiency == 0) | (500..=1000).contains(&efficiency))
            & (window <= 4000)
            & ((technology == 4) | (window <= 168))
    }
}

// HP
pub struct Hp;

impl Row for Hp {
    ghost mark = { Table.HP };

    fn length() -> usize {
        crate::HP.length
    }

    fn ranges_hold(s: &[u8]) -> bool {
        in_field(crate::HP, 0, fields::u8_at(s, 6) as usize)
            & (fields::u16_at(s, 7) <= 20000)
            & (fields::u32_at(s, 9) <= 20000000)
    }
}

// FU
pub struct Fu;

impl Row for Fu {
    ghost mark = { Table.FU };

    fn length() -> usize {
        crate::FU.length
    }

    fn ranges_hold(s: &[u8]) -> bool {
        fuel_ranges::<6>(s)
    }
}

// AD
pub struct Ad;

impl Row for Ad {
    ghost mark = { Table.AD };

    fn length() -> usize {
        crate::AD.length
    }

    fn ranges_hold(s: &[u8]) -> bool {
        adder_ranges::<6>(s)
    }
}

// MM
pub struct Mm;

impl Row for Mm {
    ghost mark = { Table.MM };

    fn length() -> usize {
        crate::MM.length
    }

    fn ranges_hold(s: &[u8]) -> bool {
        maintenance_ranges::<6>(s)
    }
}

// RQ
pub struct Rq;

impl Row for Rq {
    ghost mark = { Table.RQ };

    fn length() -> usize {
        crate::RQ.length
    }

    fn ranges_hold(s: &[u8]) -> bool {
        in_field(crate::RQ, 0, fields::u8_at(s, 6) as usize)
            & (fields::u8_at(s, 15) <= 4)
            & (fields::u32_at(s, 7) <= fields::u32_at(s, 11))
    }
}

// HR
pub struct Hr;

impl Row for Hr {
    ghost mark = { Table.HR };

    fn length() -> usize {
        crate::HR.length
    }

    fn ranges_hold(s: &[u8]) -> bool {
        in_field(crate::HR, 0, fields::u8_at(s, 6) as usize) & price(s, 7)
    }
}

// CH
pub struct Ch;

impl Row for Ch {
    ghost mark = { Table.CH };

    fn length() -> usize {
        crate::CH.length
    }

    fn ranges_hold(s: &[u8]) -> bool {
        in_field(crate::CH, 0, fields::u16_at(s, 6) as usize)
            & price(s, 8)
            & (fields::u32_at(s, 12) <= 1000000)
    }
}

// TH; its margin and its floor may be any number
pub struct Th;

impl Row for Th {
    ghost mark = { Table.TH };

    fn length() -> usize {
        crate::TH.length
    }

    fn ranges_hold(s: &[u8]) -> bool {
        in_field(crate::TH, 0, fields::u8_at(s, 6) as usize)
            & in_field(crate::TH, 1, fields::u8_at(s, 7) as usize)
            & (fields::u16_at(s, 8) <= 10000)
    }
}

// FP
pub struct Fp;

impl Row for Fp {
    ghost mark = { Table.FP };

    fn length() -> usize {
        crate::FP.length
    }

    fn ranges_hold(s: &[u8]) -> bool {
        in_field(crate::FP, 0, fields::u16_at(s, 6) as usize) & price(s, 8)
    }
}

// LC
pub struct Lc;

impl Row for Lc {
    ghost mark = { Table.LC };

    fn length() -> usize {
        crate::LC.length
    }

    fn ranges_hold(s: &[u8]) -> bool {
        fields::u32_at(s, 6) <= 2000000000
    }
}

// AO
pub struct Ao;

impl Row for Ao {
    ghost mark = { Table.AO };

    fn length() -> usize {
        crate::AO.length
    }

    fn ranges_hold(s: &[u8]) -> bool {
        in_field(crate::AO, 0, fields::u8_at(s, 6) as usize) & adder_ranges::<7>(s)
    }
}

// FV
pub struct Fv;

impl Row for Fv {
    ghost mark = { Table.FV };

    fn length() -> usize {
        crate::FV.length
    }

    fn ranges_hold(s: &[u8]) -> bool {
        fuel_ranges::<10>(s)
    }
}

// AV
pub struct Av;

impl Row for Av {
    ghost mark = { Table.AV };

    fn length() -> usize {
        crate::AV.length
    }

    fn ranges_hold(s: &[u8]) -> bool {
        adder_ranges::<10>(s)
    }
}

// MV
pub struct Mv;

impl Row for Mv {
    ghost mark = { Table.MV };

    fn length() -> usize {
        crate::MV.length
    }

    fn ranges_hold(s: &[u8]) -> bool {
        maintenance_ranges::<10>(s)
    }
}
