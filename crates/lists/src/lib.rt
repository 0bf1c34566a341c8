// What the definitions need of lists and of tests over many things, and no paper defines; and what code needs of a test. The
// definitions are in specs/, their laws in proofs/.
#![tactic(auto)]

ghost use Rattle.std.specs.Prelude.{◌≡◌, cond};

// One of two numbers. A function of its own: what an `if` chose is lost to a proof where its two ways join.
pub fn choose(b: bool, x: usize, y: usize) -> usize
    ensures { result ≡ cond b x y }
{
    if b { x } else { y }
}
