// Bench for other languages. Each function answers one 64-bit number (specs/Codes.antt); the crate bench_c exports them to C.
#![tactic(auto)]

ghost use Rattle.std.specs.Prelude.{◌≡◌, [], ◌∷◌, ◌/◌, ◌%◌, ◌<◌, length};
ghost use Rattle.station.specs.InForce.{query};
ghost use Rattle.records.specs.Record.{mark, kind_of};
ghost use Rattle.lookup.specs.Parts.{lookup_part};
ghost use Rattle.rules.specs.Answer.{answer};
ghost use Rattle.rules.specs.Week.{week_answer, prices_after, energies_after};
ghost use Rattle.verdicts.specs.Verdict.{on_offer, on_price};
ghost use Rattle.layout.specs.Report.{written, report, report_answer, buffer_after};
ghost use Rattle.words.specs.Words.{words_answer, words_after};
ghost use Rattle.bench.specs.Codes.{coded, answer_code, part_code, words_code, verdict_code, written_code, week_code};

use records::Refusal;
use verdicts::Verdict;

// class × 2^56 + a × 2^32 + b
fn code(class: u64, a: usize, b: usize) -> u64
    requires { class < 3 }
    ensures { result ≡ coded class a b }
{
    class * 72057594037927936 + (a as u64) % 16777216 * 4294967296 + (b as u64) % 4294967296
}

// class 2: a refusal's number and place
fn refused(refusal: Refusal) -> u64
    ensures { result ≡ coded 2 refusal.number refusal.place }
{
    code(2, usize::from(refusal.number), refusal.place)
}

// The code of a verdict.
#[tactic(auto, unfolding(crate::specs::Codes::verdict_code))]
fn of_verdict(verdict: Verdict) -> u64
    ensures { result ≡ verdict_code verdict }
{
    match verdict {
        Verdict::Passes => 0,
        Verdict::Fails { pair, lamination } => code(1, pair, lamination),
        Verdict::Refused { number, place } => refused(Refusal { number, place }),
    }
}

// Whether a dossier is accepted.
#[tactic(auto, unfolding(crate::specs::Codes::answer_code))]
pub fn bench_accept(dossier: &[u8]) -> u64
    ensures { result ≡ answer_code (answer dossier.now) }
{
    match acceptance::accept(dossier) {
        Ok(()) => 0,
        Err(refusal) => refused(refusal),
    }
}

// Where the current record of a mark and key stands in a dossier.
#[tactic(auto, unfolding(crate::specs::Codes::part_code))]
pub fn bench_current(dossier: &[u8], letters: u16, key: u32) -> u64
    ensures { result ≡ part_code (lookup_part dossier.now (kind_of (mark (letters / 256 ∷ letters % 256 ∷ []))) key) }
{
    let part = lookup::current_by_number(dossier, letters, key);
    let start = part.start;
    let length = part.length;
    code(0, start, length)
}

// The levels at an hour, as words in a lent list; class 0 with 66.
#[tactic(auto, unfolding(crate::specs::Codes::words_code))]
pub fn bench_levels(dossier: &[u8], hour: u32, owner: u8, words: &mut [u64]) -> u64
    ensures answer { result ≡ words_code (words_answer dossier.now (query hour owner) (length words.old)) }
    ensures words { words.new ≡ words_after dossier.now (query hour owner) words.old }
{
    match words::levels_words(dossier, hour, owner, words) {
        Ok(()) => 66,
        Err(refusal) => refused(refusal),
    }
}

// The conduct test of an energy offer.
pub fn bench_energy_test(dossier: &[u8], hour: u32, owner: u8, condition: u8, offer: &[u8]) -> u64
    ensures { result ≡ verdict_code (on_offer dossier.now (query hour owner) condition offer.now) }
{
    of_verdict(conduct::energy_test(dossier, hour, owner, condition, offer))
}

// The conduct test of a single price in cents.
pub fn bench_price_test(
    dossier: &[u8],
    hour: u32,
    owner: u8,
    level: u8,
    condition: u8,
    price: i32,
) -> u64
    ensures { result ≡ verdict_code (on_price dossier.now (query hour owner) level condition price) }
{
    of_verdict(conduct::price_test(dossier, hour, owner, level, condition, price))
}

// The report, written to a lent buffer.
#[tactic(auto, unfolding(crate::specs::Codes::written_code))]
pub fn bench_report(dossier: &[u8], hour: u32, owner: u8, buffer: &mut [u8]) -> u64
    ensures answer { result ≡ written_code (written (report_answer dossier.now (query hour owner) (length buffer.old))
        (length (report dossier.now (query hour owner)))) }
    ensures buffer { buffer.new ≡ buffer_after dossier.now (query hour owner) buffer.old }
{
    match report::report(dossier, hour, owner, buffer) {
        Ok(n) => code(0, 0, n),
        Err(refusal) => refused(refusal),
    }
}

// The charging week: prices in cents and energies in kWh, in two lent lists; class 0 with 2,016.
#[tactic(auto, unfolding(crate::specs::Codes::week_code))]
pub fn bench_week(dossier: &[u8], prices: &mut [i32], energies: &mut [u32]) -> u64
    ensures answer { result ≡ week_code (week_answer dossier.now (length prices.old) (length energies.old)) }
    ensures prices { prices.new ≡ prices_after dossier.now prices.old energies.old }
    ensures energies { energies.new ≡ energies_after dossier.now prices.old energies.old }
{
    match week::week(dossier, prices, energies) {
        Ok(()) => 2016,
        Err(refusal) => refused(refusal),
    }
}
