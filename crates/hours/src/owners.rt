// The index for an owner, made of that of both. Only AO has other current records for another owner, and the slots of each owner's lie together.
ghost use Rattle.std.specs.Prelude.{◌≡◌, List, ℕ, ◌≤◌, length};
ghost use Rattle.lists.specs.Lists.{Each, those};
ghost use Rattle.records.specs.Record.{fault};
ghost use Rattle.station.specs.InForce.{speaks_to};
ghost use Rattle.index.specs.Slots.{short};
ghost use Rattle.index.specs.Holding.{IndexOf};

use crate::clear;

// The slots of AO, those of owner 1 first, and how many each owner has.
const FIRST: usize = 334;

const EACH: usize = 80;

// An index of some records becomes that of those which speak to the owner: the other owner's slots are emptied.
pub fn for_owner(index: &mut [u16], owner: u8)
    requires { (short ≤ length index.old) × (1 ≤ owner) × (owner ≤ 2) }
    ensures { (l : List (List ℕ)) (d : List ℕ) → IndexOf l d index.old → Each (λ s. fault s ≡ 0) l
        → IndexOf (those (speaks_to owner) l) d index.new }
{
    clear(index, FIRST + (2 - (owner as usize)) * EACH, EACH);
}
