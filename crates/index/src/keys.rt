// Where a key's slot lies in the index.
#![tactic(auto, unfolding(crate::specs::Slots::slot))]

ghost use Rattle.std.specs.Prelude.{◌≡◌, ◌+◌, ◌*◌, ◌<◌};
ghost use Rattle.records.specs.Table.{HP, FU, AD, MM, RQ, HR, CH, TH, FP, LC, AO};
ghost use Rattle.index.specs.Slots.{slot};

// The slot of a key, by mark. Key fields count from 1, so a mark's slots begin one field of each below the number that is added. The marks with one field
// differ in that number alone, and have a function each: a generic one with the number from a trait is no plainer than `21 + n`.
pub fn slot_hp(n: usize) -> usize
    requires { n < 4294967296 }
    ensures { result ≡ slot HP n }
{
    n
}

pub fn slot_fu(n: usize) -> usize
    requires { n < 4294967296 }
    ensures { result ≡ slot FU n }
{
    21 + n
}

pub fn slot_rq(n: usize) -> usize
    requires { n < 4294967296 }
    ensures { result ≡ slot RQ n }
{
    137 + n
}

pub fn slot_hr(n: usize) -> usize
    requires { n < 4294967296 }
    ensures { result ≡ slot HR n }
{
    165 + n
}

pub fn slot_ch(n: usize) -> usize
    requires { n < 4294967296 }
    ensures { result ≡ slot CH n }
{
    493 + n
}

pub fn slot_ad(p: usize, c: usize, v: usize) -> usize
    requires { (p < 256) × (c < 256) × (v < 256) }
    ensures { result ≡ slot AD (p * 65536 + c * 256 + v) }
{
    1 + p * 20 + c * 4 + v
}

pub fn slot_ao(o: usize, p: usize, c: usize, v: usize) -> usize
    requires { (o < 256) × (p < 256) × (c < 256) × (v < 256) }
    ensures { result ≡ slot AO (o * 16777216 + p * 65536 + c * 256 + v) }
{
    229 + o * 80 + p * 20 + c * 4 + v
}

pub fn slot_mm(p: usize, j: usize) -> usize
    requires { (p < 65536) × (j < 256) }
    ensures { result ≡ slot MM (p * 256 + j) }
{
    97 + p * 8 + j
}

pub fn slot_th(c: usize, v: usize) -> usize
    requires { (c < 65536) × (v < 256) }
    ensures { result ≡ slot TH (c * 256 + v) }
{
    149 + c * 4 + v
}

pub fn slot_fp(n: usize) -> usize
    requires { n < 4294967296 }
    ensures { result ≡ slot FP n }
{
    2510 + n
}

pub fn slot_lc() -> usize
    ensures { result ≡ slot LC 0 }
{
    2510
}
