// A table of words: a word's number is the place where it first stands, and a set says which are true.
ghost use Rattle.std.specs.Prelude.{◌≡◌};
ghost use Rattle.truth.specs.Bits.{bit_of};
ghost use Rattle.evaluator.specs.Values.{index_of, value_in};

// Where w first stands in the table; the table's length, where it does not.
// Kept as a number, and as a loop that gives it by `break`: `index_of` names the length for "not there", and
// the rules of the project name the loop.
pub fn lookup(table: &[u32], w: u32) -> usize
    ensures { result ≡ index_of table.now w }
{
    let mut i: usize = 0;
    let number = loop {
        if table.len() <= i {
            break i;
        }
        if table[i] == w {
            break i;
        }
        i += 1;
    };
    number
}

// The value of the instance with the word w.
pub(crate) fn value_of(table: &[u32], truth: &[u64; 8], w: u32) -> Option<bool>
    ensures { result ≡ value_in table.now (bit_of truth.now) w }
{
    let j = lookup(table, w);
    if j < table.len() {
        Some(truth::has(*truth, j))
    } else {
        None
    }
}
