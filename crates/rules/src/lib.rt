// What a dossier that can be read must meet: 5 to 9 and 17, and the whole answer. The definitions are in specs/, their laws in proofs/.
#![tactic(auto)]

ghost use Rattle.std.specs.Prelude.{◌≡◌};
ghost use Rattle.rules.specs.Fit.{holds};

// Whether a technology holds a level.
#[tactic(auto, unfolding(crate::specs::Fit::holds, crate::specs::Fit::levels_of, lists::specs::Tests::among))]
pub fn level_held(t: u8, level: u8) -> bool
    ensures { result ≡ holds t level }
{
    matches!((t, level), (1, 1..=4) | (2, 1) | (3 | 4, 1 | 4))
}
