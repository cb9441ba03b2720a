// Rows of sets, one after the other in a list of words: row i is the eight words from i * 8 on. A row that is
// not there has nothing in it.
ghost use Rattle.std.specs.Prelude.{◌≡◌, [], ◌∷◌, get_or};
ghost use Rattle.truth.specs.Bits.{bit_of};
ghost use Rattle.truth.specs.Rows.{row_of, unlike_in, joined, LastOf, with_bit, with_row, Becomes};

// The word at a place; 0 past the end.
fn word_at(rows: &[u64], at: usize) -> u64
    ensures { result ≡ get_or rows.now at 0 }
{
    rows.get(at).copied().unwrap_or(0)
}

// The bits of a word at which another one is not b.
fn unlike(word: u64, other: u64, b: bool) -> u64
    ensures { bit_of (result ∷ []) ≡ unlike_in (bit_of (word ∷ [])) (bit_of (other ∷ [])) b }
{
    if b { word & !other } else { word & other }
}

// Whether row i has number k.
pub fn row_has(rows: &[u64], i: usize, k: usize) -> bool
    ensures { result ≡ row_of rows.now i k }
{
    if 512 <= k {
        return false;
    }
    if rows.len() <= i {
        return false;
    }
    (word_at(rows, i * 8 + k / 64) >> (k % 64)) % 2 == 1
}

// The last number of row i at which the set t is not b.
pub fn last_unlike(rows: &[u64], i: usize, t: [u64; 8], b: bool) -> Option<usize>
    ensures { LastOf (unlike_in (row_of rows.now i) (bit_of t) b) result }
{
    if rows.len() <= i {
        return None;
    }
    for word in (0..8).rev() {
        let bits = unlike(word_at(rows, i * 8 + word), t[word], b);
        if bits != 0 {
            // A cast: usize has no From<u32>.
            return Some(word * 64 + (63 - bits.leading_zeros() as usize));
        }
    }
    None
}

// The set d with the numbers of row i at which the set t is not b.
pub fn with_unlike(d: [u64; 8], rows: &[u64], i: usize, t: [u64; 8], b: bool) -> [u64; 8]
    ensures { bit_of result ≡ joined (bit_of d) (unlike_in (row_of rows.now i) (bit_of t) b) }
{
    let mut s = d;
    if rows.len() <= i {
        return s;
    }
    for word in 0..8 {
        s[word] |= unlike(word_at(rows, i * 8 + word), t[word], b);
    }
    s
}

// Sets bit `at` of the words; one past the last word leaves them.
pub fn mark(rows: &mut [u64], at: usize)
    ensures { Becomes rows.old rows.new (with_bit rows.old at) }
{
    if at / 64 < rows.len() {
        rows[at / 64] |= 1u64 << (at % 64);
    }
}

// Puts a set as row i; where the row is not there with all of its words nothing changes.
pub fn put_row(ws: &mut [u64], i: usize, t: [u64; 8])
    ensures { Becomes ws.old ws.new (with_row ws.old i (bit_of t)) }
{
    if ws.len() / 8 <= i {
        return;
    }
    for word in 0..8 {
        ws[i * 8 + word] = t[word];
    }
}
