// The word of an instance, packed and unpacked; and how many words of a list have an equation.
#![tactic(auto)]

ghost use Rattle.std.specs.Prelude.{◌≡◌, ◌∷◌};
ghost use Rattle.meaning.specs.Words.{word};
ghost use Rattle.formulas.specs.Tuples.{items};
ghost use Rattle.words.specs.Unpacked.{equation_number, argument_tuple};
ghost use Rattle.words.specs.Counts.{count_with};

use formulas::{Tuple, item};

// The word of an equation's instance with these arguments; absent ones are 0.
pub fn word_of(equation: u8, arguments: Tuple) -> u32
    ensures { result ≡ word (equation ∷ items arguments) }
{
    let p = u32::from(item(arguments, 0));
    let q = u32::from(item(arguments, 1));
    let r = u32::from(item(arguments, 2));
    let s = u32::from(item(arguments, 3));
    u32::from(equation) * 65536 + p * 4096 + q * 256 + r * 16 + s
}

// The number of the equation that a word names. A cast: of no `u32` is there a `From` to `usize`.
pub fn equation_number(w: u32) -> usize
    ensures { result ≡ equation_number w }
{
    (w / 65536) as usize
}

// The first k arguments that a word names, at most four.
pub fn argument_tuple(w: u32, k: u8) -> Tuple
    ensures { result ≡ argument_tuple w k }
{
    Tuple {
        values: [
            (w / 4096 % 16) as u8,
            (w / 256 % 16) as u8,
            (w / 16 % 16) as u8,
            (w % 16) as u8,
            0,
            0,
            0,
            0,
        ],
        count: usize::from(k).min(4),
    }
}

// How many words of a list have an equation.
pub fn count_with(equation: usize, list: &[u32]) -> usize
    ensures { result ≡ count_with equation list.now }
{
    list.iter()
        .filter(|w| equation_number(**w) == equation)
        .count()
}
