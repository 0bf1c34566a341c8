// The conduct test and its verdicts, from levels and an offer. The definitions are in specs/, their laws in proofs/.
#![tactic(auto)]

ghost use Rattle.std.specs.Prelude.{◌≡◌};
ghost use Rattle.verdicts.specs.declared.Verdict.TheVariants.{Refused};

use records::Refusal;

// The verdict on an offer: it fails at its first failing pair, then lamination; a single price has neither, and names 0.
#[derive(Clone, Copy, Debug, PartialEq, Eq)]
pub enum Verdict {
    Passes,
    Fails { pair: usize, lamination: usize },
    Refused { number: u8, place: usize },
}

impl From<Refusal> for Verdict {
    ghost from_gives = { λ r v. v ≡ Refused r.number r.place };

    fn from(refusal: Refusal) -> Verdict {
        Verdict::Refused {
            number: refusal.number,
            place: refusal.place,
        }
    }
}
