// The program `levels`: reads a big-endian 4-byte hour and then a dossier from standard input, and prints the report or the refusal. What it prints for any
// input is `prints` of the layer layout. Which bytes the system's calls read and write is in no contract: it is assumed that each read leaves the next bytes
// of the input where it is told to, and that writing writes what it is handed. A read or write that fails ends the program with the system's error.
#![tactic(auto)]

ghost use Rattle.std.specs.Prelude.{◌≡◌, List, ℕ, ◌+◌, ◌<◌, ◌≤◌, length, take, drop, IfOk, OnOk};
ghost use Rattle.std.specs.Io.KnownBytes.{Consumes, IsAtEnd};
ghost use Rattle.text.specs.Text.{over};
ghost use Rattle.layout.specs.Report.{longest_report, prints};

use std::io;
use std::io::{Read, Write};

// One read into a buffer behind its first bytes: how many more it has then, none only where the input has ended.
fn read_behind<R: Read>(reader: &mut R, buf: &mut [u8], at: usize) -> io::Result<usize>
    requires { at < length buf.old }
    ensures front { take at buf.new ≡ take at buf.old }
    ensures fits { IfOk result (λ n. at + n ≤ length buf.new) }
    ensures bytes { IfOk result (λ n. Consumes (R.remaining reader.old) (R.remaining reader.new) (take n (drop at buf.new))) }
    ensures end { IfOk result (λ n. n ≡ 0 → IsAtEnd (R.remaining reader.new)) }
{
    reader.read(&mut buf[at..])
}

// Reads until a buffer is full or the input ends: how many bytes it put at the front. They are the reader's next bytes, and where there was room for more, all.
// Of std's own, `read_exact` refuses an input that is shorter than the buffer, and `read_to_end` wants a heap.
fn read_full<R: Read>(reader: &mut R, buf: &mut [u8]) -> io::Result<usize>
    ensures fits { IfOk result (λ n. n ≤ length buf.new) }
    ensures bytes { IfOk result (λ n. Consumes (R.remaining reader.old) (R.remaining reader.new) (take n buf.new)) }
    ensures end { IfOk result (λ n. n < length buf.new → IsAtEnd (R.remaining reader.new)) }
{
    let mut filled = 0;
    // each read says how many bytes it added
    while filled < buf.len() {
        let n = read_behind(reader, buf, filled)?;
        if n == 0 {
            return Ok(filled);
        }
        filled += n;
    }
    Ok(filled)
}

// All that is to be printed for an input i, given n bytes that were read of it: an hour, the longest dossier, and one byte more, which tells that a dossier
// is too long. So what it says holds of the whole input, however long it is.
fn answer(read: &[u8], n: usize, out: &mut [u8]) -> usize
    requires { (length read.now ≡ 60005) × (n ≤ 60005) × (longest_report ≤ length out.old) }
    ensures { (result ≤ longest_report) × ((i : List ℕ) → take 60005 i ≡ take n read.now → (result ≡ length (prints i))
        × (out.new ≡ over (prints i) out.old)) }
{
    // the buffer is long enough, so nothing is refused
    report::print(&read[..n], out).unwrap()
}

fn main(rt: HostRuntime) -> io::Result<()> {
    let mut input = [0u8; 60005];
    let n = read_full(&mut rt.stdin(), &mut input)?;
    let mut out = [0u8; layout::LONGEST];
    let len = answer(&input, n, &mut out);
    io::writer(&rt).write_all(&out[..len])
}
