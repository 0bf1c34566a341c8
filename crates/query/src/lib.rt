// What a query draws before anything is asked of its levels. Every query begins here.
#![tactic(auto)]

mod profile;

ghost use Rattle.std.specs.Prelude.{◌≡◌, not, [], ◌∷◌};
ghost use Rattle.records.specs.Answers.{Accepted, refuse_if, refusal_of};
ghost use Rattle.station.specs.InForce.{query};
ghost use Rattle.station.specs.Week.{WeekIn};
ghost use Rattle.lookup.specs.Parts.{Empty, Indexed, AtQuery, parameters_held};
ghost use Rattle.formulas.specs.Levels.{profile as profile_at, fuelled, IsOwner, query_answer};
ghost use Rattle.query.specs.Drawn.{asked, asked_at, way_answer};

use lookup::Room;
use records::Refusal;

// What a query draws: nothing, and it is answered in its profile; or a refusal.
pub type Asked = Result<usize, Refusal>;

// The way in to a query: refused before the dossier is read, or how long an index it is read with first. The owner's refusal comes first of all, then 13.
pub fn way_in(d: &[u8], owner: u8) -> Result<Room, Refusal>
    ensures { refusal_of result ≡ way_answer d.now owner }
{
    if (owner < 1) | (2 < owner) {
        return Err(Refusal {
            number: 3,
            place: 0,
        });
    }
    lookup::room_for(d)
}

// 20: the hour's profile has no fuel in force. Where it has, the profile is told, so that nobody works it out again.
fn fuel_at(d: &[u8], index: &[u16], hour: u32) -> Asked
    requires { Indexed d.now index.now }
    ensures { result ≡ asked (refuse_if (not (fuelled (parameters_held d.now index.now) hour)) 20 0)
        (profile_at (parameters_held d.now index.now) hour) }
{
    let profile = profile::profile(d, index, hour);
    if index[index::keys::slot_fu(profile)] == 0 {
        return Err(Refusal {
            number: 20,
            place: 0,
        });
    }
    Ok(profile)
}

// The answer to a dossier for a query of one of the two owners: its own, and then 20, or else the hour's profile. Where nothing is drawn the index is the
// query's: that of all records, turned to the hour where one has a first hour, and without the other owner's where one names an owner.
pub fn judge_at(d: &[u8], hour: u32, owner: u8, index: &mut [u16], sums: &mut [u64]) -> Asked
    requires { Empty index.old × (sums.old ≡ 0 ∷ 0 ∷ []) × IsOwner owner }
    ensures { (result ≡ asked_at d.now (query hour owner)) × (query_answer d.now (query hour owner) ≡ Accepted
        → AtQuery (query hour owner) d.now index.new × WeekIn d.now sums.new) }
{
    let judged = acceptance::judge(d, index, sums)?;
    if judged.dated {
        hours::at_hour(d, index, hour);
    }
    if judged.owned {
        hours::owners::for_owner(index, owner);
    }
    fuel_at(d, index, hour)
}
