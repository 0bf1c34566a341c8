// 4: kind, key and issue seen before.
#![tactic(auto)]

ghost use Rattle.std.specs.Prelude.{◌≡◌, [], ◌+◌, ◌*◌, ◌<◌, ◌≤◌, length};
ghost use Rattle.records.specs.Answers.{Accepted};
ghost use Rattle.records.specs.Dossier.{records, scan};
ghost use Rattle.records.specs.MarkShapes.{shortest};
ghost use Rattle.station.specs.Current.{twins};
ghost use Rattle.twins.specs.Tree.{root, Shape, Fresh, Entered};

use records::{Answer, Refusal};

// The root at which the way of an id begins.
fn root_of(x: u64, roots: usize) -> usize
    requires { roots ≤ 65536 }
    ensures { result ≡ root roots x }
{
    let m = (x % 4294967296 * 2654435769 + x / 4294967296 * 1540483477) % 4294967296;
    (m * (roots as u64) / 4294967296) as usize
}

// Goes the way of an id; true if a node has it, else a node is set for it. A `while`, since each node's link says which is next.
fn enter(links: &mut [u16], ids: &mut [u64], roots: usize, count: u16, x: u64) -> bool
    requires { Shape roots links.old ids.old count }
    ensures { Entered roots links.old ids.old count x result links.new ids.new }
{
    let mut at = root_of(x, roots);
    let mut left = x;
    let mut node = links[at] as usize;
    while node != 0 {
        if ids[node] == x {
            return true;
        }
        at = roots + 2 * node + ((left % 2) as usize);
        left /= 2;
        node = links[at] as usize;
    }
    links[at] = count + 1;
    ids[(count + 1) as usize] = x;
    false
}

// The first record that has an earlier twin, by a tree of the ids of those before it.
fn search(d: &[u8], links: &mut [u16], ids: &mut [u64], roots: usize) -> Answer
    requires { Fresh roots links.old (length ids.old) (length d.now) × (scan 0 (records d.now) ≡ Accepted) }
    ensures { result ≡ twins 0 [] (records d.now) }
{
    let mut at = 0;
    let mut count = 0u16;
    // A `while`, since records differ in length. None is shorter, and so the compiler knows that the bytes read below are there.
    while records::SHORTEST <= d.len() - at {
        let rest = &d[at..];
        let s = index::reader::entry_at(rest);
        let next = at + s.len;
        let x = (s.slot as u64) * 4294967296 + (fields::u32_at(rest, 2) as u64);
        if enter(links, ids, roots, count, x) {
            return Err(Refusal {
                number: 4,
                place: at,
            });
        }
        count += 1;
        at = next;
    }
    Ok(())
}

// The same with a tree of its own: roots, links and ids. What is cleared stays small beside the dossier.
fn in_room<const ROOTS: usize, const LINKS: usize, const IDS: usize>(d: &[u8]) -> Answer
    requires tree { (0 < ROOTS) × (ROOTS ≤ 65536) × (LINKS ≡ ROOTS + 2 * IDS) × (IDS ≤ 65535) }
    requires room { length d.now + shortest < shortest * IDS }
    requires read { scan 0 (records d.now) ≡ Accepted }
    ensures { result ≡ twins 0 [] (records d.now) }
{
    let mut links = [0u16; LINKS];
    let mut ids = [0u64; IDS];
    search(d, &mut links, &mut ids, ROOTS)
}

// By the trees for more than 4,000 bytes. Called from two functions, it keeps its 88 KB in a frame of its own.
fn in_large(d: &[u8]) -> Answer
    requires { (length d.now ≤ 60000) × (scan 0 (records d.now) ≡ Accepted) }
    ensures { result ≡ twins 0 [] (records d.now) }
{
    if d.len() <= 8000 {
        return in_room::<2048, 3652, 802>(d);
    }
    if d.len() <= 16000 {
        return in_room::<4096, 7300, 1602>(d);
    }
    if d.len() <= 32000 {
        return in_room::<8192, 14596, 3202>(d);
    }
    in_room::<8192, 20196, 6002>(d)
}

// By the trees for at most 4,000 bytes.
fn in_small(d: &[u8]) -> Answer
    requires { (length d.now ≤ 60000) × (scan 0 (records d.now) ≡ Accepted) }
    ensures { result ≡ twins 0 [] (records d.now) }
{
    if d.len() <= 500 {
        return in_room::<128, 232, 52>(d);
    }
    if d.len() <= 1000 {
        return in_room::<256, 460, 102>(d);
    }
    if d.len() <= 2000 {
        return in_room::<512, 916, 202>(d);
    }
    if d.len() <= 4000 {
        return in_room::<1024, 1828, 402>(d);
    }
    // never so: it is the second call of `in_large`
    in_large(d)
}

// The first record that has an earlier twin.
pub fn first_twin(d: &[u8]) -> Answer
    requires { (length d.now ≤ 60000) × (scan 0 (records d.now) ≡ Accepted) }
    ensures { result ≡ twins 0 [] (records d.now) }
{
    if 4000 < d.len() {
        return in_large(d);
    }
    in_small(d)
}
