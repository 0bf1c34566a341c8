// Whether a dossier is accepted: 13, 1 to 9 and 17, each with its place.
#![tactic(auto)]

ghost use Rattle.std.specs.Prelude.{◌≡◌, true, false, [], ◌∷◌, ◌<◌, ◌≤◌, length, IfOk};
ghost use Rattle.records.specs.Answers.{Accepted, refusal_of};
ghost use Rattle.records.specs.Dossier.{records, scan};
ghost use Rattle.station.specs.Current.{current, twins, readable};
ghost use Rattle.station.specs.Week.{WeekIn};
ghost use Rattle.lookup.specs.Parts.{Empty, Whole, Complete, UpTo};
ghost use Rattle.station.specs.InForce.{Undated, Unowned};
ghost use Rattle.rules.specs.Fit.{Known, unfit};
ghost use Rattle.trials.specs.Trials.{KeysFit};
ghost use Rattle.records.specs.Table.{RS};
ghost use Rattle.rules.specs.Answer.{answer};
ghost use Rattle.index.specs.Slots.{short, wide};

use index::Summary;
use lookup::Room;
use records::{Answer, Refusal};
use requirements::unsupported_of;

// Whether a record of an accepted dossier may have a first hour, or name an owner.
#[derive(Clone, Copy)]
pub struct Judged {
    pub dated: bool,
    pub owned: bool,
}

// The first slot of an owner's records: where no record has a slot so high, none is an owner's.
const FIRST_OWNED: usize = 334;

// 6 where a record may have a first hour: told by what FU and MM say if it is known that others fit, else by what counts at some hour. That search is
// called twice, so that the compiler keeps its arrays out of the frames of its callers.
fn unfit_dated(d: &[u8], index: &[u16], t: u8, slots: bool) -> Answer
    requires { Whole d.now index.now × Complete d.now index.now × (twins 0 [] (records d.now) ≡ Accepted) × Known t
        × (slots ≡ true → KeysFit t (records d.now)) }
    ensures { result ≡ unfit t (records d.now) }
{
    if !slots {
        return counting::first_unfit(d, index, t, true);
    }
    if fit::values_fit(d, t) {
        return Ok(());
    }
    counting::first_unfit(d, index, t, false)
}

// 6: the slots of the index tell most of it. But for a thermal station, a short dossier without first hours is gone through sooner than the index.
fn unfit_in(d: &[u8], index: &[u16], rs: &[u8], t: u8, top: usize, dated: bool) -> Answer
    requires { Whole d.now index.now × Complete d.now index.now × (dated ≡ false → Undated d.now) × (readable d.now ≡ Accepted) × Known t
        × (rs.now ≡ current RS 0 (records d.now)) × UpTo d.now top }
    ensures { result ≡ unfit t (records d.now) }
{
    let worth = dated | (t == 1) | (200 < d.len());
    let slots = fit::slots_tell(index, rs, t, top, worth);
    if dated {
        return unfit_dated(d, index, t, slots);
    }
    fit::unfit_of(d, index, t, slots)
}

// 5 to 9 and 17, of a dossier that draws none before them, given the highest slot of a record and whether one has a first hour.
fn rules_after_reading(d: &[u8], index: &[u16], top: usize, dated: bool) -> Answer
    requires { Whole d.now index.now × Complete d.now index.now × UpTo d.now top × (readable d.now ≡ Accepted)
        × (dated ≡ false → Undated d.now) }
    ensures { result ≡ answer d.now }
{
    let rs = lookup::rs(d, index);
    if rs.len() == 0 {
        return Err(Refusal {
            number: 5,
            place: d.len(),
        });
    }
    unfit_in(d, index, rs, fields::u8_at(rs, 6), top, dated)?;
    unsupported_of(d, index)
}

// The answer to a dossier, with an index of so many slots, one for each of its records.
fn answer_in<const SLOTS: usize>(d: &[u8], sums: &mut [u64], top: usize, dated: bool) -> Answer
    requires { (short ≤ SLOTS) × (SLOTS ≤ wide) × (sums.old ≡ 0 ∷ 0 ∷ []) × UpTo d.now top × (top < SLOTS) × (dated ≡ false → Undated d.now) }
    ensures { (result ≡ answer d.now) × (result ≡ Accepted → WeekIn d.now sums.new) }
{
    let mut index = [0u16; SLOTS];
    lookup::open(d, &mut index, sums)?;
    rules_after_reading(d, &index, top, dated)
}

// The answer to a dossier with a record that the index at hand has no slot for: it is read once more, with as many slots as the highest wants.
// No slot is above 6,510, the last of the widest index. The sums start again.
fn judge_with_wider_index(d: &[u8], sums: &mut [u64], top: usize, dated: bool) -> Answer
    requires { (length sums.old ≡ 2) × (scan 0 (records d.now) ≡ Accepted) × UpTo d.now top × (dated ≡ false → Undated d.now) }
    ensures { (result ≡ answer d.now) × (result ≡ Accepted → WeekIn d.now sums.new) }
{
    sums.fill(0);
    if top < index::NARROW {
        answer_in::<{ index::NARROW }>(d, sums, top, dated)
    } else {
        answer_in::<{ index::WIDE }>(d, sums, 6510, dated)
    }
}

// The answer to a dossier that draws none of 13 and 1 to 3, with an index of all its records, given what the pass says.
fn indexed_answer(d: &[u8], index: &[u16], pass: Summary) -> Answer
    requires { Whole d.now index.now × Complete d.now index.now × UpTo d.now pass.top × (pass.rising ≡ true → readable d.now ≡ Accepted)
        × (pass.dated ≡ false → Undated d.now) }
    ensures { result ≡ answer d.now }
{
    if !pass.rising {
        twins::first_twin(d)?;
    }
    rules_after_reading(d, index, pass.top, pass.dated)
}

// The answer to a dossier, and where it is accepted its index and the sums of its charging week.
pub fn judge(d: &[u8], index: &mut [u16], sums: &mut [u64]) -> Result<Judged, Refusal>
    requires { Empty index.old × (sums.old ≡ 0 ∷ 0 ∷ []) }
    ensures answer { refusal_of result ≡ answer d.now }
    ensures read { IfOk result (λ j. Whole d.now index.new × WeekIn d.now sums.new
        × (j.dated ≡ false → Undated d.now) × (j.owned ≡ false → Unowned d.now)) }
{
    let pass = lookup::scan(d, index, sums)?;
    if pass.top < index.len() {
        indexed_answer(d, index, pass)?;
    } else {
        judge_with_wider_index(d, sums, pass.top, pass.dated)?;
    }
    Ok(Judged {
        dated: pass.dated,
        owned: FIRST_OWNED <= pass.top,
    })
}

// The answer alone, with an index of so many slots.
fn accept_in<const SLOTS: usize>(d: &[u8]) -> Answer
    requires { (short ≤ SLOTS) × (SLOTS ≤ wide) }
    ensures { result ≡ answer d.now }
{
    let mut index = [0u16; SLOTS];
    let mut sums = [0u64; 2];
    judge(d, &mut index, &mut sums)?;
    Ok(())
}

// The answer to a dossier. The law of 13 is named, so that a number that is written here is told right from wrong.
#[tactic(auto, using(rules::proofs::Draws::overlong))]
pub fn accept(d: &[u8]) -> Answer
    ensures { result ≡ answer d.now }
{
    match lookup::room_for(d)? {
        Room::Short => accept_in::<{ index::SHORT }>(d),
        Room::Narrow => accept_in::<{ index::NARROW }>(d),
        Room::Wide => accept_in::<{ index::WIDE }>(d),
    }
}
