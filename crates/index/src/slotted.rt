// What the reader knows of each mark besides its row of the table: where the key of its records lies, and whether they have a first hour.
#![tactic(auto, unfolding(crate::specs::Slots::slot_at,
// the kind
records::specs::Record::kind_of, records::specs::Record::is_dated,
// where the key lies
records::specs::Record::fields_at, records::specs::Record::key_width, records::specs::Record::key_in,
// by the mark's row
records::specs::Table::row_of, records::specs::Table::table))]

ghost use Rattle.std.specs.Prelude.{◌≡◌};
ghost use Rattle.records.specs.Record.{is_dated};
ghost use Rattle.index.specs.Slots.{slot_at};

use crate::keys::{
    slot_ad, slot_ao, slot_ch, slot_fp, slot_fu, slot_hp, slot_hr, slot_lc, slot_mm, slot_rq,
    slot_th,
};
use fields::{u8_at, u16_at};
use records::rows::{Ad, Ao, Av, Ch, Fp, Fu, Fv, Hp, Hr, Lc, Mm, Mv, Row, Rq, Rs, Th};

// A mark that is known when the program is made, with its records' slots.
pub trait Slotted: Row {
    // Whether its records have a first hour.
    fn is_dated() -> bool
        ensures { result ≡ is_dated Self.mark };

    // The slot of a record of this mark.
    fn slot_at(s: &[u8]) -> usize
        ensures { result ≡ slot_at Self.mark s.now };
}

impl Slotted for Rs {
    fn is_dated() -> bool {
        false
    }

    fn slot_at(_s: &[u8]) -> usize {
        0
    }
}

impl Slotted for Hp {
    fn is_dated() -> bool {
        false
    }

    fn slot_at(s: &[u8]) -> usize {
        slot_hp(u8_at(s, 6) as usize)
    }
}

impl Slotted for Fu {
    fn is_dated() -> bool {
        false
    }

    fn slot_at(s: &[u8]) -> usize {
        slot_fu(u8_at(s, 6) as usize)
    }
}

impl Slotted for Ad {
    fn is_dated() -> bool {
        false
    }

    fn slot_at(s: &[u8]) -> usize {
        slot_ad(
            u8_at(s, 6) as usize,
            u8_at(s, 7) as usize,
            u8_at(s, 8) as usize,
        )
    }
}

impl Slotted for Mm {
    fn is_dated() -> bool {
        false
    }

    fn slot_at(s: &[u8]) -> usize {
        slot_mm(u8_at(s, 6) as usize, u8_at(s, 7) as usize)
    }
}

impl Slotted for Rq {
    fn is_dated() -> bool {
        false
    }

    fn slot_at(s: &[u8]) -> usize {
        slot_rq(u8_at(s, 6) as usize)
    }
}

impl Slotted for Hr {
    fn is_dated() -> bool {
        false
    }

    fn slot_at(s: &[u8]) -> usize {
        slot_hr(u8_at(s, 6) as usize)
    }
}

impl Slotted for Ch {
    fn is_dated() -> bool {
        false
    }

    fn slot_at(s: &[u8]) -> usize {
        slot_ch(u16_at(s, 6) as usize)
    }
}

impl Slotted for Th {
    fn is_dated() -> bool {
        false
    }

    fn slot_at(s: &[u8]) -> usize {
        slot_th(u8_at(s, 6) as usize, u8_at(s, 7) as usize)
    }
}

impl Slotted for Fp {
    fn is_dated() -> bool {
        false
    }

    fn slot_at(s: &[u8]) -> usize {
        slot_fp(u16_at(s, 6) as usize)
    }
}

impl Slotted for Lc {
    fn is_dated() -> bool {
        false
    }

    fn slot_at(_s: &[u8]) -> usize {
        slot_lc()
    }
}

impl Slotted for Ao {
    fn is_dated() -> bool {
        false
    }

    fn slot_at(s: &[u8]) -> usize {
        slot_ao(
            u8_at(s, 6) as usize,
            u8_at(s, 7) as usize,
            u8_at(s, 8) as usize,
            u8_at(s, 9) as usize,
        )
    }
}

impl Slotted for Fv {
    fn is_dated() -> bool {
        true
    }

    fn slot_at(s: &[u8]) -> usize {
        slot_fu(u8_at(s, 10) as usize)
    }
}

impl Slotted for Av {
    fn is_dated() -> bool {
        true
    }

    fn slot_at(s: &[u8]) -> usize {
        slot_ad(
            u8_at(s, 10) as usize,
            u8_at(s, 11) as usize,
            u8_at(s, 12) as usize,
        )
    }
}

impl Slotted for Mv {
    fn is_dated() -> bool {
        true
    }

    fn slot_at(s: &[u8]) -> usize {
        slot_mm(u8_at(s, 10) as usize, u8_at(s, 11) as usize)
    }
}
