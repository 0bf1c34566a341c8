// How the report's numbers and words are written as bytes, each at the front of a lent buffer. A
// writer returns how many bytes it wrote; the next one is lent the buffer from there on. The
// lengths can be had before anything is written.
#![tactic(auto, using(crate::proofs::Lengths::lengths))]

ghost use Rattle.std.specs.Prelude.{◌≡◌, ◌++◌, ◌+◌, ◌<◌, ◌≤◌, length};
ghost use Rattle.text.specs.Text.{over, decimal, tenths, hundredths, refusal_line};

// A word, as `b"start "`.
pub fn put(buf: &mut [u8], word: &[u8]) -> usize
    requires { length word.now ≤ length buf.old }
    ensures { (result ≡ length word.now) × (buf.new ≡ over word.now buf.old) }
{
    buf[..word.len()].copy_from_slice(word);
    word.len()
}

// How many digits a number has; 0 has one.
pub fn decimal_len(n: u64) -> usize
    ensures { result ≡ length (decimal n) }
{
    n.max(1).ilog10() as usize + 1
}

// A digit's byte.
fn digit(d: u64) -> u8
    requires { d < 10 }
    ensures { result ≡ 48 + d }
{
    b'0' + d as u8
}

// A number. Its length is found first, so that each digit, from the last on, goes straight to its
// place.
pub fn put_decimal(buf: &mut [u8], n: u64) -> usize
    requires { length (decimal n) ≤ length buf.old }
    ensures { (result ≡ length (decimal n)) × (buf.new ≡ over (decimal n) buf.old) }
{
    let len = decimal_len(n);
    let mut m = n;
    for i in (0..len).rev() {
        buf[i] = digit(m % 10);
        m /= 10;
    }
    len
}

// The point and the digit behind it are 2 bytes.
pub fn tenths_len(n: u64) -> usize
    ensures { result ≡ length (tenths n) }
{
    decimal_len(n / 10) + 2
}

// An output in MW, given in tenths.
pub fn put_tenths(buf: &mut [u8], n: u64) -> usize
    requires { length (tenths n) ≤ length buf.old }
    ensures { (result ≡ length (tenths n)) × (buf.new ≡ over (tenths n) buf.old) }
{
    let a = put_decimal(buf, n / 10);
    buf[a] = b'.';
    let b = a + 1;
    buf[b] = digit(n % 10);
    b + 1
}

// One digit more than the tenths.
pub fn hundredths_len(n: u64) -> usize
    ensures { result ≡ length (hundredths n) }
{
    tenths_len(n / 10) + 1
}

// An amount in dollars, given in cents.
pub fn put_hundredths(buf: &mut [u8], n: u64) -> usize
    requires { length (hundredths n) ≤ length buf.old }
    ensures { (result ≡ length (hundredths n)) × (buf.new ≡ over (hundredths n) buf.old) }
{
    let a = put_tenths(buf, n / 10);
    buf[a] = digit(n % 10);
    a + 1
}

// A word, and a number behind it.
pub fn put_numbered(buf: &mut [u8], word: &[u8], n: u64) -> usize
    requires { length (word.now ++ decimal n) ≤ length buf.old }
    ensures { (result ≡ length (word.now ++ decimal n)) × (buf.new ≡ over (word.now ++ decimal n) buf.old) }
{
    let a = put(buf, word);
    a + put_decimal(&mut buf[a..], n)
}

// The words of a refusal and its line end are 13 bytes.
pub fn refusal_len(number: u8, place: usize) -> usize
    ensures { result ≡ length (refusal_line number place) }
{
    decimal_len(number as u64) + decimal_len(place as u64) + 13
}

// The line `refused N at P`.
pub fn put_refusal(buf: &mut [u8], number: u8, place: usize) -> usize
    requires { length (refusal_line number place) ≤ length buf.old }
    ensures { (result ≡ length (refusal_line number place)) × (buf.new ≡ over (refusal_line number place) buf.old) }
{
    let a = put_numbered(buf, b"refused ", number as u64);
    let b = a + put_numbered(&mut buf[a..], b" at ", place as u64);
    b + put(&mut buf[b..], b"\n")
}
