// The highest of some prices, by a price that parts them from the others: it is found by halving the range that they lie in.
ghost use Rattle.std.specs.Prelude.{◌≡◌, ◌+◌, ◌*◌, ◌≤◌, max, min, fold, length};
ghost use Rattle.lists.specs.Lists.{Each};
ghost use Rattle.formulas.specs.Sums.{sum_highest, from_top, above, at_least};
ghost use Rattle.arithmetic.specs.Highest.{excess, Threshold, PriceIn};

// The highest price, plus 2^31.
const HIGHEST: u32 = records::HIGHEST_PRICE as u32;

// The lowest of some, or a price if it is lower.
fn lowest(s: &[u32], price: u32) -> u32
    ensures { result ≡ fold min price s.now }
{
    s.iter().fold(price, |low, &x| low.min(x))
}

// The highest of some, or a price if it is higher.
fn topmost(s: &[u32], price: u32) -> u32
    ensures { result ≡ fold max price s.now }
{
    s.iter().fold(price, |top, &x| top.max(x))
}

// How many are above v: at most 65,536, which 32 bits count, so that the compiler takes four at a time.
fn above(s: &[u32], v: u32) -> u32
    requires { length s.now ≤ 65536 }
    ensures { result ≡ above v s.now }
{
    s.iter().map(|&x| (v < x) as u32).sum()
}

// What those above v have above it.
fn excess(s: &[u32], v: u32) -> u64
    requires { length s.now ≤ 168 }
    ensures { (result ≡ excess v s.now) × (result ≤ 168 * 4294967295) }
{
    s.iter().map(|&x| x.saturating_sub(v) as u64).sum()
}

// A threshold of the n highest with no more than `most` above it, between two that lie on either side of it. Any is as good as another, so that the halving
// stops at the first middle that is one. The range is halved, which no iterator does, so it is a `while`.
fn threshold(s: &[u32], n: usize, most: usize, low: u32, high: u32) -> u32
    requires { (length s.now ≤ 65536) × (n ≤ most + 1) × (low ≤ high) × (n ≤ at_least low s.now) × (above high s.now ≤ most) }
    ensures { Threshold n most result s.now × (low ≤ result) × (result ≤ high) }
{
    let mut lo = low;
    let mut hi = high;
    while lo < hi {
        let mid = lo + (hi - lo) / 2;
        let count = above(s, mid) as usize;
        if most < count {
            lo = mid + 1;
        } else if count < n {
            hi = mid;
        } else {
            return mid;
        }
    }
    lo
}

// Such a threshold of prices that may lie anywhere in their range.
fn price_threshold(s: &[u32], n: usize, most: usize) -> u32
    requires { (n ≤ most + 1) × (n ≤ length s.now) × (length s.now ≤ 65536) × Each PriceIn s.now }
    ensures { Threshold n most result s.now × (2147283648 ≤ result) × (result ≤ 2147683648) }
{
    let low = lowest(s, HIGHEST);
    // where all are among the highest, the lowest parts them
    if s.len() <= most {
        return low;
    }
    let high = topmost(s, low);
    threshold(s, n, most, low, high)
}

// The sum of the n highest. Any price with just these above it will do for a threshold, and the fewer the prices, the sooner a middle lies in that gap.
pub fn highest(s: &[u32], n: usize) -> u64
    requires { (n ≤ length s.now) × (length s.now ≤ 168) × Each PriceIn s.now }
    ensures { (result ≡ sum_highest n s.now) × (result ≤ 336 * 4294967295) }
{
    let v = price_threshold(s, n, n);
    excess(s, v) + (n as u64) * (v as u64)
}

// The n-th from the top, repeated prices counted each: it is the only threshold with fewer than n above it.
pub fn from_top(s: &[u32], n: usize) -> u32
    requires { (1 ≤ n) × (n ≤ length s.now) × (length s.now ≤ 65536) × Each PriceIn s.now }
    ensures { (result ≡ from_top n s.now) × (2147283648 ≤ result) × (result ≤ 2147683648) }
{
    price_threshold(s, n, n - 1)
}
