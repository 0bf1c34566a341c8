// What other languages call: each function is that of the crate bench under its name, with its clauses. include/bench.h declares them.
#![tactic(auto)]

ghost use Rattle.std.specs.Prelude.{◌≡◌, [], ◌∷◌, ◌/◌, ◌%◌, length};
ghost use Rattle.station.specs.InForce.{query};
ghost use Rattle.records.specs.Record.{mark, kind_of};
ghost use Rattle.lookup.specs.Parts.{lookup_part};
ghost use Rattle.rules.specs.Answer.{answer};
ghost use Rattle.rules.specs.Week.{week_answer, prices_after, energies_after};
ghost use Rattle.verdicts.specs.Verdict.{on_offer, on_price};
ghost use Rattle.layout.specs.Report.{written, report, report_answer, buffer_after};
ghost use Rattle.words.specs.Words.{words_answer, words_after};
ghost use Rattle.bench.specs.Codes.{answer_code, part_code, words_code, verdict_code, written_code, week_code};

// Whether a dossier is accepted.
#[unsafe(no_mangle)]
pub extern "C" fn bench_accept(dossier: &[u8]) -> u64
    ensures { result ≡ answer_code (answer dossier.now) }
{
    bench::bench_accept(dossier)
}

// Where the current record of a mark and key stands in a dossier.
#[unsafe(no_mangle)]
pub extern "C" fn bench_current(dossier: &[u8], letters: u16, key: u32) -> u64
    ensures { result ≡ part_code (lookup_part dossier.now (kind_of (mark (letters / 256 ∷ letters % 256 ∷ []))) key) }
{
    bench::bench_current(dossier, letters, key)
}

// The levels at an hour, as words in a lent list; class 0 with 66.
#[unsafe(no_mangle)]
pub extern "C" fn bench_levels(dossier: &[u8], hour: u32, owner: u8, words: &mut [u64]) -> u64
    ensures answer { result ≡ words_code (words_answer dossier.now (query hour owner) (length words.old)) }
    ensures words { words.new ≡ words_after dossier.now (query hour owner) words.old }
{
    bench::bench_levels(dossier, hour, owner, words)
}

// The conduct test of an energy offer.
#[unsafe(no_mangle)]
pub extern "C" fn bench_energy_test(
    dossier: &[u8],
    hour: u32,
    owner: u8,
    condition: u8,
    offer: &[u8],
) -> u64
    ensures { result ≡ verdict_code (on_offer dossier.now (query hour owner) condition offer.now) }
{
    bench::bench_energy_test(dossier, hour, owner, condition, offer)
}

// The conduct test of a single price in cents.
#[unsafe(no_mangle)]
pub extern "C" fn bench_price_test(
    dossier: &[u8],
    hour: u32,
    owner: u8,
    level: u8,
    condition: u8,
    price: i32,
) -> u64
    ensures { result ≡ verdict_code (on_price dossier.now (query hour owner) level condition price) }
{
    bench::bench_price_test(dossier, hour, owner, level, condition, price)
}

// The report, written to a lent buffer.
#[unsafe(no_mangle)]
pub extern "C" fn bench_report(dossier: &[u8], hour: u32, owner: u8, buffer: &mut [u8]) -> u64
    ensures answer { result ≡ written_code (written (report_answer dossier.now (query hour owner) (length buffer.old))
        (length (report dossier.now (query hour owner)))) }
    ensures buffer { buffer.new ≡ buffer_after dossier.now (query hour owner) buffer.old }
{
    bench::bench_report(dossier, hour, owner, buffer)
}

// The charging week: prices in cents and energies in kWh, in two lent lists; class 0 with 2,016.
#[unsafe(no_mangle)]
pub extern "C" fn bench_week(dossier: &[u8], prices: &mut [i32], energies: &mut [u32]) -> u64
    ensures answer { result ≡ week_code (week_answer dossier.now (length prices.old) (length energies.old)) }
    ensures prices { prices.new ≡ prices_after dossier.now prices.old energies.old }
    ensures energies { energies.new ≡ energies_after dossier.now prices.old energies.old }
{
    bench::bench_week(dossier, prices, energies)
}
