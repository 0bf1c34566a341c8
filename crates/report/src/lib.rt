// The report, and what the program `levels` prints. The laws of both are in proofs/.
#![tactic(auto)]

ghost use Rattle.std.specs.Prelude.{◌≡◌, ◌≤◌, length};
ghost use Rattle.station.specs.InForce.{query};
ghost use Rattle.index.specs.Slots.{short, wide};
ghost use Rattle.formulas.specs.Levels.{IsOwner};
ghost use Rattle.layout.specs.Report.{written, report, report_answer, buffer_after};
ghost use Rattle.report.specs.Print.{print_answer, buffer_printed};

use layout::Written;
use lookup::Room;
use records::Refusal;

// The report of a dossier at an hour, written to a lent buffer; worked out with an index of so many slots.
fn report_in<const SLOTS: usize>(d: &[u8], hour: u32, owner: u8, buf: &mut [u8]) -> Written
    requires { (short ≤ SLOTS) × (SLOTS ≤ wide) × IsOwner owner }
    ensures answer { result ≡ written (report_answer d.now (query hour owner) (length buf.old)) (length (report d.now (query hour owner))) }
    ensures buffer { buf.new ≡ buffer_after d.now (query hour owner) buf.old }
{
    let mut index = [0u16; SLOTS];
    let mut sums = [0u64; 2];
    let profile = query::judge_at(d, hour, owner, &mut index, &mut sums)?;
    let mut from = [0u64; 20];
    let mut to = [0u64; 20];
    let mut cents = [0u64; 20];
    let lv = reference::profile_levels(d, &index, &sums, profile, &mut from, &mut to, &mut cents);
    let retired = costs::maintenance::retired(d, &index, profile);
    lines::put_report(buf, lv, retired, &from, &to, &cents)
}

// The same of a dossier.
pub fn report(d: &[u8], hour: u32, owner: u8, buf: &mut [u8]) -> Written
    ensures answer { result ≡ written (report_answer d.now (query hour owner) (length buf.old)) (length (report d.now (query hour owner))) }
    ensures buffer { buf.new ≡ buffer_after d.now (query hour owner) buf.old }
{
    match query::way_in(d, owner)? {
        Room::Short => report_in::<{ index::SHORT }>(d, hour, owner, buf),
        Room::Narrow => report_in::<{ index::NARROW }>(d, hour, owner, buf),
        Room::Wide => report_in::<{ index::WIDE }>(d, hour, owner, buf),
    }
}

// The owner that the program names.
const PROGRAM_OWNER: u8 = 1;

// All that the program prints for its whole input, a 4-byte hour and then the dossier. A buffer that holds every report is enough for any of it; a shorter
// one is refused whatever the input, and keeps every byte.
pub fn print(input: &[u8], out: &mut [u8]) -> Written
    ensures answer { result ≡ print_answer input.now out.old }
    ensures buffer { out.new ≡ buffer_printed input.now out.old }
{
    if out.len() < layout::LONGEST {
        return Err(Refusal {
            number: 15,
            place: 0,
        });
    }
    if input.len() < 4 {
        return Ok(text::put_refusal(out, 16, 0));
    }
    match report(&input[4..], fields::u32_at(input, 0), PROGRAM_OWNER, out) {
        Ok(len) => Ok(len),
        Err(refusal) => Ok(text::put_refusal(out, refusal.number, refusal.place)),
    }
}
