// The paths of the lines that are kept, in buckets. Kept lines are numbered from 1. A bucket has the
// number of the line that was entered last, and each line has a link to the one that was entered before
// it in the same bucket, or 0. So a bucket is a chain of falling numbers. Bytes of paths are compared
// only within a bucket. The proof needs only that equal paths are in the same bucket.
ghost use Rattle.std.specs.Prelude.{◌≡◌, ℕ, ◌+◌, ◌≤◌, ◌<◌, length, get_or, set};
ghost use Rattle.relative.specs.Relative.{max_pairs};
ghost use Rattle.compact.specs.Held.{opens_hull, path_at, bucket_of, mixed, number_in, found_number, is_overtaken, IsTable};

use stamps::{book, line};
use text::{bytes, places as cut};

// How many buckets there are for paths, and the bucket for lines without a path.
const BUCKETS: usize = 2048;

const NO_PATH: usize = BUCKETS;

const HEADS: usize = BUCKETS + 1;

// 2 to the power of 32, and this divided by the golden ratio, as an odd number.
const BITS_32: u64 = 4294967296;

const GOLDEN: u64 = 2654435761;

// How many numbers of 32 bits share a bucket: it is given by their upper 11 bits.
const BUCKET_SIZE: u64 = 2097152;

// The kept lines in their buckets: the number of the line that was entered last in each bucket, and for
// each kept line its link and the place where it begins. These are arrays of numbers and no map, since
// nothing here uses the heap.
#[derive(Drop)]
pub struct Table {
    pub heads: [u16; HEADS],
    pub links: [u16; book::MAX_LINES],
    pub places: [u16; book::MAX_LINES],
}

impl Table {
    // A table with empty buckets.
    pub fn new() -> Table
        ensures { (b : ℕ) → get_or result.heads b 0 ≡ 0 }
    {
        Table {
            heads: [0; HEADS],
            links: no_numbers(),
            places: no_numbers(),
        }
    }

    // The number of the kept line with this path, or 0 if there is none. No Option: the definition
    // `found_number` has 0 for none, as the heads and the links have.
    pub fn find(&self, book: &[u8], path: &[u8]) -> usize
        requires { (n : ℕ) × IsTable max_pairs book.now self.now.heads self.now.links self.now.places n }
        ensures { result ≡ found_number book.now self.now.heads self.now.links self.now.places path.now }
    {
        let first = self.heads[bucket_of(path)];
        find_in_chain(book, path, first, &self.links, &self.places)
    }
}

// A number for each line that a book can have.
pub fn no_numbers() -> [u16; book::MAX_LINES]
    ensures { 5957 ≡ length result }
{
    [0; book::MAX_LINES]
}

// The path of the good line at the front of `s`. That of a `since` line is empty.
pub fn path_at(s: &[u8]) -> &[u8]
    ensures { result.now ≡ path_at s.now }
{
    if opens_hull(s) {
        cut::before(cut::from(s, line::PATH_START), b'\t')
    } else {
        &[]
    }
}

// Whether a good line is one of `hull`: its first byte tells.
#[tactic(auto, unfolding(crate::specs::Held::opens_hull))]
fn opens_hull(s: &[u8]) -> bool
    ensures { result ≡ opens_hull s.now }
{
    match s {
        [first, ..] => *first == b'h',
        [] => false,
    }
}

// The bucket of a path.
#[tactic(auto, unfolding(crate::specs::Held::bucket_of))]
pub fn bucket_of(path: &[u8]) -> usize
    ensures { (result ≡ bucket_of path.now) × (result < 2049) }
{
    if path.is_empty() {
        NO_PATH
    } else {
        (mix(path) / BUCKET_SIZE) as usize
    }
}

// The bytes of a path, mixed into a number of 32 bits.
fn mix(path: &[u8]) -> u64
    ensures { (result ≡ mixed 0 path.now) × (result < 4294967296) }
{
    let mut h: u64 = 0;
    for b in path {
        h = (h + u64::from(*b)) * GOLDEN % BITS_32;
    }
    h
}

// Whether a line with this path is overtaken by one in the chain that begins with number `first`. A line
// without a path never is. The arrays are not given as a `Table`: that would ask for its lengths, and a
// function that docs/EXCEPTIONS.md names may not ask for more than it did.
#[tactic(auto, using(crate::proofs::Chains::overtaken_no_path, crate::proofs::Chains::overtaken_path))]
pub fn is_overtaken(book: &[u8], path: &[u8], first: u16, links: &[u16], places: &[u16]) -> bool
    requires { (first ≤ length links.now) × (length links.now ≡ length places.now) × ((k : ℕ) → k < first → get_or links.now k 0 ≤ k) }
    ensures { result ≡ is_overtaken book.now links.now places.now path.now first }
{
    0 < path.len() && 0 < find_in_chain(book, path, first, links, places)
}

// The number of the first line with this path in the chain that begins with number `first`, or 0. It is
// put into both callers: as a call it costs a fifth of a compaction of short paths (docs/LOOK-BACK.md).
#[inline(always)]
fn find_in_chain(book: &[u8], path: &[u8], first: u16, links: &[u16], places: &[u16]) -> usize
    requires { (first ≤ length links.now) × (length links.now ≡ length places.now) × ((k : ℕ) → k < first → get_or links.now k 0 ≤ k) }
    ensures { result ≡ number_in book.now links.now places.now path.now first first }
{
    let mut k = usize::from(first);
    // Not a `for`: each turn follows a link.
    while 0 < k {
        let other = path_at(cut::from(book, usize::from(places[k - 1])));
        if bytes::same(other, path) {
            return k;
        }
        k = usize::from(links[k - 1]);
    }
    0
}

// Enters a line that begins at `start` in a bucket. `count` lines were kept before it. The arrays are not
// given as a `Table`: that would ask for its lengths, and a function that docs/EXCEPTIONS.md names may not
// ask for more than it did.
pub fn enter(
    start: usize,
    bucket: usize,
    count: usize,
    heads: &mut [u16],
    links: &mut [u16],
    places: &mut [u16],
)
    requires { (start < 65536) × (bucket < length heads.old) × (count < 65535) × (count < length links.old) × (count < length places.old) }
    ensures heads_after { heads.new ≡ set heads.old bucket (count + 1) }
    ensures links_after { links.new ≡ set links.old count (get_or heads.old bucket 0) }
    ensures places_after { places.new ≡ set places.old count start }
{
    links[count] = heads[bucket];
    heads[bucket] = (count + 1) as u16;
    places[count] = start as u16;
}
