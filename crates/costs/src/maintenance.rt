// Adders and maintenance: what AD, AO and MM add to the levels of a profile, and the payments that join no level.
ghost use Rattle.std.specs.Prelude.{◌≡◌, ℕ, cond, ◌&&◌, ◌+◌, ◌*◌, ◌<◌, ◌≤◌, eqb, length, get_or};
ghost use Rattle.lists.specs.Sums.{sum_to};
ghost use Rattle.records.specs.Table.{AD, AO};
ghost use Rattle.station.specs.Parameters.{adder_key, own_key, adder, own_adder, cost_c, output_w, interval_t, hours_per_start_s};
ghost use Rattle.lookup.specs.Parts.{Indexed, parameters_held, amounts_held};
ghost use Rattle.formulas.specs.Exact.{quotient, micro_dollars};
ghost use Rattle.formulas.specs.Levels.{third_party, adders, one_if, retired, maintenance, additions, start_maintenance};

// The cost of third-party payments, which owners no longer claim.
const THIRD_PARTY: usize = 4;

// Whether no cost of a level is claimed, told by the slots of its costs, the first at cost 1: third-party payments are not.
fn unclaimed(index: &[u16], first: usize) -> bool
    requires { first + 16 < length index.now }
    ensures { result ≡ (eqb (get_or index.now first 0) 0 && eqb (get_or index.now (first + 4) 0) 0
        && eqb (get_or index.now (first + 8) 0) 0 && eqb (get_or index.now (first + 16) 0) 0) }
{
    (index[first] == 0)
        & (index[first + 4] == 0)
        & (index[first + 8] == 0)
        & (index[first + 16] == 0)
}

// What is said of 1 to n, added up.
fn summed<F: Fn(usize) -> u64>(n: usize, part: F) -> u64
    requires few { n ≤ 8 }
    requires said { (k : ℕ) → 1 ≤ k → k ≤ n → F.pre part k }
    requires small { (k r : ℕ) → 1 ≤ k → k ≤ n → F.post part k r → r ≤ 1000000000000000000 }
    ensures sum { (f : ℕ → ℕ) → ((k r : ℕ) → 1 ≤ k → k ≤ n → F.post part k r → r ≡ f k) → result ≡ sum_to n f }
    ensures within { (most : ℕ) → ((k r : ℕ) → 1 ≤ k → k ≤ n → F.post part k r → r ≤ most) → result ≤ n * most }
{
    let mut sum = 0;
    for k in 0..n {
        sum += part(k + 1);
    }
    sum
}

// What is said of the costs of a level, added up, without one that is withdrawn.
fn claimed<F: Fn(usize) -> u64>(withdrawn: usize, cost: F) -> u64
    requires said { (c : ℕ) → 1 ≤ c → c ≤ 5 → F.pre cost c }
    requires small { (c r : ℕ) → 1 ≤ c → c ≤ 5 → F.post cost c r → r ≤ 2000000000000 }
    ensures sum { (f : ℕ → ℕ) → ((c r : ℕ) → 1 ≤ c → c ≤ 5 → F.post cost c r → r ≡ f c) → result ≡ sum_to 5 (λ c. cond (eqb c withdrawn) 0 (f c)) }
    ensures within { (most : ℕ) → ((c r : ℕ) → 1 ≤ c → c ≤ 5 → F.post cost c r → r ≤ most) → result ≤ 5 * most }
{
    summed(
        5,
        |c: usize| -> u64
            requires { F.pre cost c }
        { if c == withdrawn { 0 } else { cost(c) } },
    )
}

// The common adders of a level.
fn common_adders(d: &[u8], index: &[u16], p: usize, v: usize) -> u64
    requires { Indexed d.now index.now × (1 ≤ p) × (p ≤ 4) × (1 ≤ v) × (v ≤ 4) }
    ensures { (result ≡ sum_to 5 (λ c. cond (eqb c third_party) 0 (adder (amounts_held d.now index.now) p c v))) × (result ≤ 5000000000000) }
{
    claimed(THIRD_PARTY, |c| parameters::adder(d, index, p, c, v))
}

// The owners' adders.
fn own_adders(d: &[u8], index: &[u16], p: usize, v: usize) -> u64
    requires { Indexed d.now index.now × (1 ≤ p) × (p ≤ 4) × (1 ≤ v) × (v ≤ 4) }
    ensures { (result ≡ sum_to 5 (λ c. cond (eqb c third_party) 0 (own_adder (amounts_held d.now index.now) 1 p c v
        + own_adder (amounts_held d.now index.now) 2 p c v))) × (result ≤ 10000000000000) }
{
    claimed(
        THIRD_PARTY,
        |c| parameters::own_adder(d, index, 1, p, c, v)
            + parameters::own_adder(d, index, 2, p, c, v),
    )
}

// The adders of a level: the common ones, and of the owners those of the one that is asked for, whose records alone the index holds.
// A level without adders is told by its slots at once, as a profile without items is below; few levels have an owner's.
pub fn adders(d: &[u8], index: &[u16], p: usize, v: usize) -> u64
    requires { Indexed d.now index.now × (1 ≤ p) × (p ≤ 4) × (1 ≤ v) × (v ≤ 4) }
    ensures { (result ≡ micro_dollars (adders (amounts_held d.now index.now) p v)) × (result ≤ 15000000000000) }
{
    let own = unclaimed(index, index::keys::slot_ao(1, p, 1, v))
        & unclaimed(index, index::keys::slot_ao(2, p, 1, v));
    if unclaimed(index, index::keys::slot_ad(p, 1, v)) & own {
        return 0;
    }
    let common = common_adders(d, index, p, v);
    if own {
        return common;
    }
    common + own_adders(d, index, p, v)
}

// How many third-party payments of a level are in force: of AD and of each owner's AO one or none.
fn payments(d: &[u8], index: &[u16], p: usize, v: usize) -> u64
    requires { Indexed d.now index.now × (1 ≤ p) × (p ≤ 4) × (1 ≤ v) × (v ≤ 4) }
    ensures { (result ≡ one_if (parameters_held d.now index.now) AD (adder_key p third_party v)
        + one_if (parameters_held d.now index.now) AO (own_key 1 p third_party v)
        + one_if (parameters_held d.now index.now) AO (own_key 2 p third_party v)) × (result ≤ 3) }
{
    let common = lookup::ad(d, index, p, THIRD_PARTY, v).len() != 0;
    let first = lookup::ao(d, index, 1, p, THIRD_PARTY, v).len() != 0;
    let second = lookup::ao(d, index, 2, p, THIRD_PARTY, v).len() != 0;
    (common as u64) + (first as u64) + (second as u64)
}

// How many of a profile are, at all levels.
pub fn retired(d: &[u8], index: &[u16], p: usize) -> u64
    requires { Indexed d.now index.now × (1 ≤ p) × (p ≤ 4) }
    ensures { result ≡ retired (parameters_held d.now index.now) p }
{
    summed(4, |v| payments(d, index, p, v))
}

// What item j adds to energy.
fn item(d: &[u8], index: &[u16], p: usize, j: usize) -> u64
    requires { Indexed d.now index.now × (1 ≤ p) × (p ≤ 4) × (1 ≤ j) × (j ≤ 8) }
    ensures { (result ≡ quotient (cost_c (amounts_held d.now index.now) p j * 100000)
        (output_w (parameters_held d.now index.now) p j * interval_t (parameters_held d.now index.now) p j))
        × (result ≤ 10000000000000000) }
{
    let cost = parameters::item_cost(d, index, p, j);
    let output = parameters::item_output(d, index, p, j);
    let interval = parameters::item_interval(d, index, p, j);
    arithmetic::share(cost * 100000, output * interval)
}

// What it adds to a start.
fn start_item(d: &[u8], index: &[u16], p: usize, j: usize) -> u64
    requires { Indexed d.now index.now × (1 ≤ p) × (p ≤ 4) × (1 ≤ j) × (j ≤ 8) }
    ensures { (result ≡ quotient (cost_c (amounts_held d.now index.now) p j * hours_per_start_s
        (parameters_held d.now index.now) p j * 1000) (interval_t (parameters_held d.now index.now) p j))
        × (result ≤ 1000000000000000000) }
{
    let cost = parameters::item_cost(d, index, p, j);
    let interval = parameters::item_interval(d, index, p, j);
    let hours = parameters::item_hours(d, index, p, j);
    arithmetic::share(cost * hours * 1000, interval)
}

// Maintenance in an energy level.
fn maintenance(d: &[u8], index: &[u16], p: usize) -> u64
    requires { Indexed d.now index.now × (1 ≤ p) × (p ≤ 4) }
    ensures { (result ≡ micro_dollars (maintenance (parameters_held d.now index.now)
        (amounts_held d.now index.now) p)) × (result ≤ 80000000000000000) }
{
    if index::slots_empty(index, index::keys::slot_mm(p, 1), 8) {
        return 0;
    }
    summed(8, |j| item(d, index, p, j))
}

// What adders and MM add to an energy level.
pub fn additions(d: &[u8], index: &[u16], p: usize) -> u64
    requires { Indexed d.now index.now × (1 ≤ p) × (p ≤ 4) }
    ensures { (result ≡ micro_dollars (additions (parameters_held d.now index.now)
        (amounts_held d.now index.now) p)) × (result ≤ 80015000000000000) }
{
    adders(d, index, p, 1) + maintenance(d, index, p)
}

// Maintenance in a start level. It shares its sum with `maintenance`; one function for both would take the item as a closure once more, and is no plainer.
pub fn start_maintenance(d: &[u8], index: &[u16], p: usize) -> u64
    requires { Indexed d.now index.now × (1 ≤ p) × (p ≤ 4) }
    ensures { (result ≡ micro_dollars (start_maintenance (parameters_held d.now index.now)
        (amounts_held d.now index.now) p)) × (result ≤ 8000000000000000000) }
{
    if index::slots_empty(index, index::keys::slot_mm(p, 1), 8) {
        return 0;
    }
    summed(8, |j| start_item(d, index, p, j))
}
