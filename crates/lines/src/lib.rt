// The report of levels in hand, line by line in a lent buffer. The definitions are in specs/, their laws in proofs/.
#![tactic(auto, using(crate::proofs::Levels::lengths))]

ghost use Rattle.std.specs.Prelude.{◌≡◌, ◌++◌, ◌≤◌, length};
ghost use Rattle.text.specs.Text.{over, tenths, space};
ghost use Rattle.rules.specs.Fit.{holds};
ghost use Rattle.layout.specs.Report.{number_line, energy_line, amount_line};
ghost use Rattle.arrays.specs.Packed.{hour_of, in_arrays};
ghost use Rattle.lines.specs.Parts.{packed_report, lamination_lines, held_line, other_lines, written_of, buffer_of};

use arrays::SingleLevels;
use layout::Written;
use records::Refusal;
use rules::level_held;

// A line with a word and a whole number; the line end is one byte.
fn number_line_len(word: &[u8], n: u64) -> usize
    requires { length word.now ≤ 8 }
    ensures { result ≡ length (number_line word.now n) }
{
    word.len() + text::decimal_len(n) + 1
}

fn put_number_line(buf: &mut [u8], word: &[u8], n: u64) -> usize
    requires { length (number_line word.now n) ≤ length buf.old }
    ensures { (result ≡ length (number_line word.now n)) × (buf.new ≡ over (number_line word.now n) buf.old) }
{
    let a = text::put_numbered(buf, word, n);
    a + text::put(&mut buf[a..], b"\n")
}

// A line with a word and a level.
fn put_amount_line(buf: &mut [u8], word: &[u8], cents: u64) -> usize
    requires { length (amount_line word.now cents) ≤ length buf.old }
    ensures { (result ≡ length (amount_line word.now cents))
        × (buf.new ≡ over (amount_line word.now cents) buf.old) }
{
    let a = text::put(buf, word);
    let b = a + text::put_hundredths(&mut buf[a..], cents);
    b + text::put(&mut buf[b..], b"\n")
}

// An output behind a space.
fn put_output(buf: &mut [u8], n: u64) -> usize
    requires { length (space ++ tenths n) ≤ length buf.old }
    ensures { (result ≡ length (space ++ tenths n)) × (buf.new ≡ over (space ++ tenths n) buf.old) }
{
    let a = text::put(buf, b" ");
    a + text::put_tenths(&mut buf[a..], n)
}

// The word, the spaces and the line end are 11 bytes.
fn energy_line_len(lamination: u64, from: u64, to: u64, cents: u64) -> usize
    ensures { result ≡ length (energy_line lamination from to cents) }
{
    text::decimal_len(lamination)
        + text::tenths_len(from)
        + text::tenths_len(to)
        + text::hundredths_len(cents)
        + 11
}

fn put_energy_line(buf: &mut [u8], lamination: u64, from: u64, to: u64, cents: u64) -> usize
    requires { length (energy_line lamination from to cents) ≤ length buf.old }
    ensures { (result ≡ length (energy_line lamination from to cents)) × (buf.new ≡ over (energy_line lamination from to cents) buf.old) }
{
    let a = text::put_numbered(buf, b"energy ", lamination);
    let b = a + put_output(&mut buf[a..], from);
    let c = b + put_output(&mut buf[b..], to);
    // the level and the line end are a line's with a space for its word
    c + put_amount_line(&mut buf[c..], b" ", cents)
}

// All energy lines, of laminations in lent arrays.
fn laminations_len<'a>(
    from: &'a [u64; 20],
    to: &'a [u64; 20],
    cents: &'a [u64; 20],
    count: usize,
) -> usize
    requires { count ≤ 20 }
    ensures { result ≡ length (lamination_lines (in_arrays from.now to.now cents.now count) count) }
{
    let mut len = 0;
    for i in 0..count {
        len += energy_line_len((i + 1) as u64, from[i], to[i], cents[i]);
    }
    len
}

fn put_laminations<'a>(
    buf: &mut [u8],
    from: &'a [u64; 20],
    to: &'a [u64; 20],
    cents: &'a [u64; 20],
    count: usize,
) -> usize
    requires { (count ≤ 20) × (length (lamination_lines (in_arrays from.now to.now cents.now count) count) ≤ length buf.old) }
    ensures { (result ≡ length (lamination_lines (in_arrays from.now to.now cents.now count) count))
        × (buf.new ≡ over (lamination_lines (in_arrays from.now to.now cents.now count) count)
        buf.old) }
{
    let mut at = 0;
    for i in 0..count {
        at += put_energy_line(&mut buf[at..], (i + 1) as u64, from[i], to[i], cents[i]);
    }
    at
}

// The line end is one byte.
fn amount_line_len(word: &[u8], cents: u64) -> usize
    requires { length word.now ≤ 8 }
    ensures { result ≡ length (amount_line word.now cents) }
{
    word.len() + text::hundredths_len(cents) + 1
}

// A line that is there where the technology holds its level.
fn held_line_len(technology: u8, level: u8, word: &[u8], cents: u64) -> usize
    requires { length word.now ≤ 8 }
    ensures { result ≡ length (held_line (holds technology level) word.now cents) }
{
    if level_held(technology, level) {
        amount_line_len(word, cents)
    } else {
        0
    }
}

fn put_held_line(buf: &mut [u8], technology: u8, level: u8, word: &[u8], cents: u64) -> usize
    requires { length (held_line (holds technology level) word.now cents) ≤ length buf.old }
    ensures { (result ≡ length (held_line (holds technology level) word.now cents))
        × (buf.new ≡ over (held_line (holds technology level) word.now cents) buf.old) }
{
    if level_held(technology, level) {
        put_amount_line(buf, word, cents)
    } else {
        0
    }
}

// The other lines: start, no-load and reserve, as the technology holds them.
fn others_len(technology: u8, start: u64, noload: u64, reserve: u64) -> usize
    ensures { result ≡ length (other_lines technology start noload reserve) }
{
    let a = held_line_len(technology, 2, b"start ", start);
    let b = held_line_len(technology, 3, b"no-load ", noload);
    a + b + held_line_len(technology, 4, b"reserve ", reserve)
}

fn put_others(buf: &mut [u8], technology: u8, start: u64, noload: u64, reserve: u64) -> usize
    requires { length (other_lines technology start noload reserve) ≤ length buf.old }
    ensures { (result ≡ length (other_lines technology start noload reserve))
        × (buf.new ≡ over (other_lines technology start noload reserve) buf.old) }
{
    let a = put_held_line(buf, technology, 2, b"start ", start);
    let b = a + put_held_line(&mut buf[a..], technology, 3, b"no-load ", noload);
    b + put_held_line(&mut buf[b..], technology, 4, b"reserve ", reserve)
}

// All the lines of a report with so many payments retired.
fn report_len<'a>(
    lv: SingleLevels,
    retired: u64,
    from: &'a [u64; 20],
    to: &'a [u64; 20],
    cents: &'a [u64; 20],
) -> usize
    requires { lv.count ≤ 20 }
    ensures { result ≡ length (packed_report (hour_of lv from.now to.now cents.now) retired) }
{
    let first = number_line_len(b"profile ", lv.profile as u64);
    let energy = laminations_len(from, to, cents, lv.count);
    let others = others_len(lv.technology, lv.start, lv.noload, lv.reserve);
    first + energy + others + number_line_len(b"retired ", retired)
}

// The whole report. Its length comes first, so that a buffer too short keeps every byte; a buffer that any report fits needs none.
pub fn put_report<'a>(
    buf: &mut [u8],
    lv: SingleLevels,
    retired: u64,
    from: &'a [u64; 20],
    to: &'a [u64; 20],
    cents: &'a [u64; 20],
) -> Written
    requires { lv.count ≤ 20 }
    ensures answer { result ≡ written_of (hour_of lv from.now to.now cents.now) retired (length buf.old) }
    ensures buffer { buf.new ≡ buffer_of (hour_of lv from.now to.now cents.now) retired buf.old }
{
    if buf.len() < layout::LONGEST {
        if buf.len() < report_len(lv, retired, from, to, cents) {
            return Err(Refusal {
                number: 15,
                place: 0,
            });
        }
    }
    let a = put_number_line(buf, b"profile ", lv.profile as u64);
    let b = a + put_laminations(&mut buf[a..], from, to, cents, lv.count);
    let c = b
        + put_others(
            &mut buf[b..],
            lv.technology,
            lv.start,
            lv.noload,
            lv.reserve,
        );
    Ok(c + put_number_line(&mut buf[c..], b"retired ", retired))
}
