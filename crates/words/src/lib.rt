// The levels at an hour as 66 numbers in a lent list, for callers in other languages. The definitions are in specs/, their
// laws in proofs/.
#![tactic(auto)]

ghost use Rattle.std.specs.Prelude.{◌≡◌, ◌++◌, ◌≤◌, length, take, drop, replicate};
ghost use Rattle.station.specs.InForce.{query};
ghost use Rattle.index.specs.Slots.{short, wide};
ghost use Rattle.formulas.specs.Levels.{IsOwner};
ghost use Rattle.arrays.specs.Packed.{hour_of, in_arrays};
ghost use Rattle.words.specs.Words.{held_bits, Blank, words_to, words_of, words_answer, words_after};

use arrays::SingleLevels;
use lookup::Room;
use records::{Answer, Refusal};
use rules::level_held;

// The levels that a technology holds, a bit each.
fn held_bits(technology: u8) -> u64
    ensures { result ≡ held_bits technology }
{
    let energy = u64::from(level_held(technology, 1));
    let start = 2 * u64::from(level_held(technology, 2));
    let noload = 4 * u64::from(level_held(technology, 3));
    let reserve = 8 * u64::from(level_held(technology, 4));
    energy + start + noload + reserve
}

// The profile, the number of laminations, and from, to and level of each; the places behind them have nothing, and few have anything.
fn put_laminations<'a>(
    from: &'a [u64; 20],
    to: &'a [u64; 20],
    cents: &'a [u64; 20],
    profile: usize,
    count: usize,
    words: &mut [u64],
)
    requires { (62 ≤ length words.old) × (take 62 words.old ≡ replicate 62 0) × Blank (in_arrays from.now to.now cents.now count) }
    ensures { words.new ≡ words_to profile (in_arrays from.now to.now cents.now count) 20 ++ drop 62
        words.old }
{
    words[0] = profile as u64;
    words[1] = count as u64;
    for i in 0..count {
        let at = 3 * i + 2;
        words[at] = from[i];
        words[at + 1] = to[i];
        words[at + 2] = cents[i];
    }
}

// All 66 words.
fn put_words<'a>(
    lv: SingleLevels,
    from: &'a [u64; 20],
    to: &'a [u64; 20],
    cents: &'a [u64; 20],
    words: &mut [u64],
)
    requires { (66 ≤ length words.old) × Blank (in_arrays from.now to.now cents.now lv.count) }
    ensures { words.new ≡ words_of (hour_of lv from.now to.now cents.now) ++ drop 66 words.old }
{
    words[..62].fill(0);
    put_laminations(from, to, cents, lv.profile, lv.count, words);
    words[62] = held_bits(lv.technology);
    words[63] = lv.start;
    words[64] = lv.noload;
    words[65] = lv.reserve;
}

// The levels of a dossier at an hour, as words in a lent list; worked out with an index of so many slots.
fn levels_words_in<const SLOTS: usize>(d: &[u8], hour: u32, owner: u8, words: &mut [u64]) -> Answer
    requires { (short ≤ SLOTS) × (SLOTS ≤ wide) × IsOwner owner }
    ensures { (result ≡ words_answer d.now (query hour owner) (length words.old))
        × (words.new ≡ words_after d.now (query hour owner) words.old) }
{
    let mut index = [0u16; SLOTS];
    let mut sums = [0u64; 2];
    let profile = query::judge_at(d, hour, owner, &mut index, &mut sums)?;
    if words.len() < 66 {
        return Err(Refusal {
            number: 15,
            place: 0,
        });
    }
    let mut from = [0u64; 20];
    let mut to = [0u64; 20];
    let mut cents = [0u64; 20];
    let lv = reference::profile_levels(d, &index, &sums, profile, &mut from, &mut to, &mut cents);
    put_words(lv, &from, &to, &cents, words);
    Ok(())
}

// The same of a dossier.
pub fn levels_words(d: &[u8], hour: u32, owner: u8, words: &mut [u64]) -> Answer
    ensures { (result ≡ words_answer d.now (query hour owner) (length words.old))
        × (words.new ≡ words_after d.now (query hour owner) words.old) }
{
    match query::way_in(d, owner)? {
        Room::Short => levels_words_in::<{ index::SHORT }>(d, hour, owner, words),
        Room::Narrow => levels_words_in::<{ index::NARROW }>(d, hour, owner, words),
        Room::Wide => levels_words_in::<{ index::WIDE }>(d, hour, owner, words),
    }
}
