// A set of at most 512 instances, in eight words: instance j is bit j % 64 of word j / 64. Rows of such sets
// stand one after the other in a list of words.
#![tactic(auto)]

mod rows;

ghost use Rattle.std.specs.Prelude.{◌≡◌};
ghost use Rattle.truth.specs.Bits.{bit_of, put_in, nowhere, same_below, Counts};

pub use rows::{last_unlike, mark, put_row, row_has, with_unlike};

// The empty set.
pub fn none() -> [u64; 8]
    ensures { bit_of result ≡ nowhere }
{
    [0u64; 8]
}

// Whether instance j is in the set: no number from 512 on is.
pub fn has(t: [u64; 8], j: usize) -> bool
    ensures { result ≡ bit_of t j }
{
    if 512 <= j {
        return false;
    }
    (t[j / 64] >> (j % 64)) % 2 == 1
}

// The set with instance j in it or not, as b says: a number from 512 on leaves the set as it is.
pub fn put(t: [u64; 8], j: usize, b: bool) -> [u64; 8]
    ensures { bit_of result ≡ put_in (bit_of t) j b }
{
    let mut s = t;
    if 512 <= j {
        return s;
    }
    if has(t, j) != b {
        s[j / 64] ^= 1u64 << (j % 64);
    }
    s
}

// Whether two sets have the same instances: so the nested solver sees that a candidate is the fixed point.
pub fn same(a: [u64; 8], b: [u64; 8]) -> bool
    ensures { result ≡ same_below 512 (bit_of a) (bit_of b) }
{
    a == b
}

// How many instances are in the set: the number of set bits.
pub fn count(t: [u64; 8]) -> usize
    ensures { Counts t result }
{
    let mut n: usize = 0;
    for word in t {
        // A cast: usize has no From<u32>.
        n += word.count_ones() as usize;
    }
    n
}
