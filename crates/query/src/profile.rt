// The profile at an hour.
ghost use Rattle.std.specs.Prelude.{◌≡◌, cond, ◌≤◌, Some, None};
ghost use Rattle.station.specs.Parameters.{requested};
ghost use Rattle.lookup.specs.Parts.{Indexed};
ghost use Rattle.formulas.specs.Levels.{parameters_in, covers, profile};

// The profile that request n asks for at an hour, if it covers it.
fn asked_at(d: &[u8], index: &[u16], hour: u32, n: usize) -> Option<usize>
    requires { Indexed d.now index.now × (1 ≤ n) × (n ≤ 16) }
    ensures { result ≡ cond (covers (parameters_in d.now) hour n) (Some (requested (parameters_in d.now) n)) None }
{
    let there = 0 < lookup::rq(d, index, n).len();
    let asked = parameters::requested(d, index, n);
    let first = parameters::first_hour(d, index, n);
    let last = parameters::last_hour(d, index, n);
    (there & (asked != 0) & (first <= hour) & (hour <= last)).then_some(asked)
}

// The highest request that covers the hour decides, so the last is asked first; with none it is profile 1, and without any the slots tell it at once.
pub fn profile(d: &[u8], index: &[u16], hour: u32) -> usize
    requires { Indexed d.now index.now }
    ensures { (result ≡ profile (parameters_in d.now) hour) × (1 ≤ result) × (result ≤ 4) }
{
    if index::slots_empty(index, index::keys::slot_rq(1), 16) {
        return 1;
    }
    for n in (1..=16).rev() {
        if let Some(asked) = asked_at(d, index, hour, n) {
            return asked;
        }
    }
    1
}
