// The prices of a window, in an array with room for more.
ghost use Rattle.std.specs.Prelude.{◌≡◌, ℕ, ◌-◌, ◌≤◌, length, drop};
ghost use Rattle.formulas.specs.Sums.{list_to};

// Prices 1 to n into the last places of an array, price 1 the very last.
pub(crate) fn last_places<F: Fn(usize) -> u32>(table: &mut [u32], n: usize, price: F)
    requires room { n ≤ length table.old }
    requires priced { (k : ℕ) → 1 ≤ k → k ≤ n → F.pre price k }
    ensures { (f : ℕ → ℕ) → ((k r : ℕ) → 1 ≤ k → k ≤ n → F.post price k r → r ≡ f k) → drop (length table.new - n) table.new ≡ list_to n f }
{
    let last = table.len();
    for k in 0..n {
        table[last - 1 - k] = price(k + 1);
    }
}
