// The marks by name, in the order of the table of specs/.

// A mark, an unknown one first.
#[derive(Clone, Copy, Debug, PartialEq, Eq)]
pub enum Mark {
    Unknown,
    RS,
    HP,
    FU,
    AD,
    MM,
    RQ,
    HR,
    CH,
    TH,
    FP,
    LC,
    AO,
    FV,
    AV,
    MV,
}
