// What comes back for a text: the struct of every answer, and the refusal. The definitions of all answers and
// the theorems over them stand in specs/.
#![tactic(auto)]

ghost use Rattle.std.specs.Prelude.{◌≡◌};
ghost use Rattle.answers.specs.Answers.{refusal};
ghost use Rattle.refusals.specs.Numbers.{number_of};

use refusals::Refusal;

// Number and line are 0 on a verdict; on a refusal everything else is 0. verdict: 1 holds, 0 fails.
// reached and trues count the reached instances and those of them that are true; truth has instance j as
// bit j % 64 of word j / 64.
// Kept as numbers: `refusal` and `judgement` name the fields, and the numbers are document 01's.
#[derive(Clone, Copy)]
pub struct Answer {
    pub number: u8,
    pub line: usize,
    pub verdict: u8,
    pub reached: usize,
    pub trues: usize,
    pub truth: [u64; 8],
}

// A refusal: its number and its line, and nothing else.
// Kept beside the conversion below: a public function, of which the theorem `one_refusal` speaks.
pub fn refuse(number: u8, line: usize) -> Answer
    ensures { result ≡ refusal number line }
{
    Answer {
        number,
        line,
        verdict: 0,
        reached: 0,
        trues: 0,
        truth: [0; 8],
    }
}

// The answer that gives a refusal: its reason's number and its line.
impl From<Refusal> for Answer {
    ghost from_gives = { λ r a. a ≡ refusal (number_of r.reason) r.line };

    fn from(r: Refusal) -> Answer {
        refuse(u8::from(r.reason), r.line)
    }
}
