// The records of a dossier. The table of marks, what one record may draw, and a raise are in specs/, their laws in proofs/.
#![tactic(auto)]

pub mod marks;
pub mod rows;

ghost use Rattle.std.specs.Prelude.{◌≡◌, cond, ◌+◌, ◌*◌, ◌<◌, get_or};
ghost use Rattle.records.specs.Marks.{row};
ghost use Rattle.records.specs.Record.{mark, is_dated, kind_of, fields_at, since, size};
ghost use Rattle.records.specs.MarkShapes.{begins, shape_of, key_field, key_fits, key_test};

pub use crate::marks::Mark;

// A refusal: the paper's number, and the place.
#[derive(Clone, Copy, Debug, PartialEq, Eq)]
pub struct Refusal {
    pub number: u8,
    pub place: usize,
}

// An answer to a dossier: accepted, or refused.
pub type Answer = Result<(), Refusal>;

// A mark's whole length, the bytes of its key, and the lowest and highest of its key fields.
#[derive(Clone, Copy)]
pub struct MarkShape {
    pub length: usize,
    pub width: usize,
    pub lowest: [u16; 4],
    pub highest: [u16; 4],
}

// The rows of the table: each mark's whole length and key bounds, an unknown mark first. Code that knows the mark reads its row.
pub const UNKNOWN: MarkShape = MarkShape {
    length: 6,
    width: 0,
    lowest: [0, 0, 0, 0],
    highest: [0, 0, 0, 0],
};

pub const RS: MarkShape = MarkShape {
    length: 31,
    width: 0,
    lowest: [0, 0, 0, 0],
    highest: [0, 0, 0, 0],
};

pub const HP: MarkShape = MarkShape {
    length: 13,
    width: 1,
    lowest: [1, 0, 0, 0],
    highest: [21, 0, 0, 0],
};

pub const FU: MarkShape = MarkShape {
    length: 15,
    width: 1,
    lowest: [1, 0, 0, 0],
    highest: [4, 0, 0, 0],
};

pub const AD: MarkShape = MarkShape {
    length: 17,
    width: 3,
    lowest: [1, 1, 1, 0],
    highest: [4, 5, 4, 0],
};

pub const MM: MarkShape = MarkShape {
    length: 24,
    width: 2,
    lowest: [1, 1, 0, 0],
    highest: [4, 8, 0, 0],
};

pub const RQ: MarkShape = MarkShape {
    length: 16,
    width: 1,
    lowest: [1, 0, 0, 0],
    highest: [16, 0, 0, 0],
};

pub const HR: MarkShape = MarkShape {
    length: 11,
    width: 1,
    lowest: [1, 0, 0, 0],
    highest: [168, 0, 0, 0],
};

pub const CH: MarkShape = MarkShape {
    length: 16,
    width: 2,
    lowest: [1, 0, 0, 0],
    highest: [2016, 0, 0, 0],
};

pub const TH: MarkShape = MarkShape {
    length: 18,
    width: 2,
    lowest: [1, 1, 0, 0],
    highest: [3, 4, 0, 0],
};

pub const FP: MarkShape = MarkShape {
    length: 12,
    width: 2,
    lowest: [1, 0, 0, 0],
    highest: [4000, 0, 0, 0],
};

pub const LC: MarkShape = MarkShape {
    length: 10,
    width: 0,
    lowest: [0, 0, 0, 0],
    highest: [0, 0, 0, 0],
};

pub const AO: MarkShape = MarkShape {
    length: 18,
    width: 4,
    lowest: [1, 1, 1, 1],
    highest: [2, 4, 5, 4],
};

pub const FV: MarkShape = MarkShape {
    length: 19,
    width: 1,
    lowest: [1, 0, 0, 0],
    highest: [4, 0, 0, 0],
};

pub const AV: MarkShape = MarkShape {
    length: 21,
    width: 3,
    lowest: [1, 1, 1, 0],
    highest: [4, 5, 4, 0],
};

pub const MV: MarkShape = MarkShape {
    length: 28,
    width: 2,
    lowest: [1, 1, 0, 0],
    highest: [4, 8, 0, 0],
};

// A constant table holds them by the mark's place in the table of specs/. A read at a variable place writes the whole table first.
pub const MARKS: [MarkShape; 16] = [
    UNKNOWN, RS, HP, FU, AD, MM, RQ, HR, CH, TH, FP, LC, AO, FV, AV, MV,
];

// No record of a known mark is shorter.
pub const SHORTEST: usize = 10;

// The range of a price, -200,000 to 200,000 cents, held plus 2^31.
pub const LOWEST_PRICE: u64 = 2147283648;

pub const HIGHEST_PRICE: u64 = 2147683648;

// The row of a mark.
pub fn mark_shape(mark: Mark) -> MarkShape
    ensures { result ≡ shape_of (row mark) }
{
    MARKS[mark as usize]
}

// The mark that a mark is but for a first hour: FU of FV, AD of AV, MM of MV.
#[tactic(auto, unfolding(crate::specs::Record::kind_of, crate::specs::Record::is_dated, crate::specs::Table::row_of, crate::specs::Table::table))]
pub fn kind_of(mark: Mark) -> Mark
    ensures { row result ≡ kind_of (row mark) }
{
    match mark {
        Mark::FV => Mark::FU,
        Mark::AV => Mark::AD,
        Mark::MV => Mark::MM,
        undated => undated,
    }
}

// Where the fields of a mark's records begin: behind a first hour, which three marks have.
#[tactic(auto, unfolding(crate::specs::Record::fields_at, crate::specs::Table::row_of, crate::specs::Table::table))]
pub fn fields_at(mark: Mark) -> usize
    ensures { result ≡ fields_at (row mark) }
{
    match mark {
        Mark::FV | Mark::AV | Mark::MV => 10,
        _ => 6,
    }
}

// The length of a mark's records. A row of the table, asked for by a variable place, would be made with the whole table each time.
#[tactic(auto, using(crate::proofs::Record::sizes))]
pub fn length_of(mark: Mark) -> usize
    ensures { result ≡ size (row mark) }
{
    match mark {
        Mark::Unknown => UNKNOWN.length,
        Mark::RS => RS.length,
        Mark::HP => HP.length,
        Mark::FU => FU.length,
        Mark::AD => AD.length,
        Mark::MM => MM.length,
        Mark::RQ => RQ.length,
        Mark::HR => HR.length,
        Mark::CH => CH.length,
        Mark::TH => TH.length,
        Mark::FP => FP.length,
        Mark::LC => LC.length,
        Mark::AO => AO.length,
        Mark::FV => FV.length,
        Mark::AV => AV.length,
        Mark::MV => MV.length,
    }
}

// Whether a number is within the bounds of a key field.
#[tactic(auto, unfolding(crate::specs::MarkShapes::key_field, lists::specs::Tests::between))]
fn in_field(m: MarkShape, i: usize, x: usize) -> bool
    requires { i < 4 }
    ensures { result ≡ key_field m i x }
{
    (m.lowest[i] as usize..=m.highest[i] as usize).contains(&x)
}

// Whether a number, cut into key fields, is a key of a mark of this shape.
fn in_fields(m: MarkShape, n: usize) -> bool
    ensures { result ≡ key_fits m n }
{
    if m.highest[1] == 0 {
        return in_field(m, 0, n);
    }
    if m.highest[2] == 0 {
        return in_field(m, 0, n / 256) & in_field(m, 1, n % 256);
    }
    if m.highest[3] == 0 {
        return in_field(m, 0, n / 65536) & in_field(m, 1, n / 256 % 256) & in_field(m, 2, n % 256);
    }
    in_field(m, 0, n / 16777216)
        & in_field(m, 1, n / 65536 % 256)
        & in_field(m, 2, n / 256 % 256)
        & in_field(m, 3, n % 256)
}

// Whether a number is a key of a mark.
pub fn in_key(mark: Mark, n: usize) -> bool
    ensures { result ≡ key_test (row mark) n }
{
    (mark != Mark::Unknown) & in_fields(mark_shape(mark), n)
}

// The mark is compared as two fixed bytes; as one number, so that code that tries mark after mark compares it with constants.
pub fn is_mark(s: &[u8], m: &[u8; 2]) -> bool
    ensures { result ≡ begins s.now (get_or m.now 0 0) (get_or m.now 1 0) }
{
    u16::from_le_bytes([fields::byte_at(s, 0), fields::byte_at(s, 1)]) == u16::from_le_bytes(*m)
}

// The mark of a record that has a first hour, none if its mark has none.
fn dated_mark_at(s: &[u8]) -> Mark
    ensures { row result ≡ cond (is_dated (mark s.now)) (mark s.now) 0 }
{
    if is_mark(s, b"FV") {
        return Mark::FV;
    }
    if is_mark(s, b"AV") {
        return Mark::AV;
    }
    if is_mark(s, b"MV") {
        return Mark::MV;
    }
    Mark::Unknown
}

// The mark of a record. The commonest marks come first; a `match` of the two letters was tried, and is slower.
pub fn mark_at(s: &[u8]) -> Mark
    ensures { row result ≡ mark s.now }
{
    if is_mark(s, b"CH") {
        return Mark::CH;
    }
    if is_mark(s, b"HP") {
        return Mark::HP;
    }
    if is_mark(s, b"TH") {
        return Mark::TH;
    }
    if is_mark(s, b"HR") {
        return Mark::HR;
    }
    if is_mark(s, b"FP") {
        return Mark::FP;
    }
    if is_mark(s, b"FU") {
        return Mark::FU;
    }
    if is_mark(s, b"AD") {
        return Mark::AD;
    }
    if is_mark(s, b"MM") {
        return Mark::MM;
    }
    if is_mark(s, b"RQ") {
        return Mark::RQ;
    }
    if is_mark(s, b"RS") {
        return Mark::RS;
    }
    if is_mark(s, b"LC") {
        return Mark::LC;
    }
    if is_mark(s, b"AO") {
        return Mark::AO;
    }
    dated_mark_at(s)
}

// The first hour of the record at the front, 0 where its mark has none.
#[tactic(auto, unfolding(crate::specs::Record::since, crate::specs::Record::is_dated, crate::specs::Table::row_of, crate::specs::Table::table))]
pub fn since_at(s: &[u8]) -> u32
    ensures { result ≡ since s.now }
{
    match mark_at(s) {
        Mark::FV | Mark::AV | Mark::MV => fields::u32_at(s, 6),
        _ => 0,
    }
}
