// Conditions and terms of summands after the steps around them: where a variable stands, the term that it is
// there is put in its place. Terms grow by this, so they are not built: a variable that is a parameter calls
// on the next-state term of the step before.
ghost use Rattle.std.specs.Prelude.{◌≡◌, ◌≤◌, true};
ghost use Rattle.sides.specs.Emitted.{Counted, Puts};
ghost use Rattle.sides.specs.Steps.{flipped, nth_step};
ghost use Rattle.sides.specs.Told.{code_bytes, PartTold, VariableTold, InstanceTold};

use crate::putting::{put, put_two};
use crate::{Listed, NO_STEP, Part, Source};

// A code of a condition, negated; codes of terms stay.
#[tactic(auto, unfolding(crate::specs::Steps::flipped))]
fn flipped(code: u8, flip: bool) -> u8
    ensures { result ≡ flipped flip code }
{
    if !flip {
        return code;
    }
    match code {
        0x10 => 0x11,
        0x11 => 0x10,
        0x12 => 0x13,
        0x13 => 0x12,
        0x16 => 0x18,
        0x17 => 0x19,
        0x18 => 0x16,
        0x19 => 0x17,
        _ => code,
    }
}

// Step n of the list, counted from 1.
fn step_at(steps: &[Listed; 128], n: u8) -> Listed
    requires { 1 ≤ n }
    ensures { result ≡ nth_step steps.now n }
{
    match steps.get(usize::from(n) - 1) {
        Some(step) => *step,
        None => NO_STEP,
    }
}

// Puts a code that is no variable's, and its operand where it has one.
fn put_code(out: &mut [u8; 256], count: usize, code: u8, operand: u8) -> Option<usize>
    ensures { Counted result (Puts true (code_bytes code operand) out.old count out.new) }
{
    if code < 0x20 {
        put(out, count, code)
    } else {
        put_two(out, count, code, operand)
    }
}

impl Source<'_> {
    // Puts a condition or a term.
    #[cycle(put_part_put_variable)]
    pub(crate) fn put_part(
        self,
        part: Part,
        steps: &[Listed; 128],
        out: &mut [u8; 256],
        count: usize,
    ) -> Option<usize>
        requires { (1 ≤ part.step) × (count ≤ 256) }
        ensures { Counted result (PartTold self.entry.sheet.now self.entry.places.now part steps.now
            out.old count out.new) }
    {
        let slot = step_at(steps, part.step).slot;
        let mut at = 256 * usize::from(slot) + usize::from(part.at);
        let mut pending = 1;
        let mut c = count;
        // A while: the steps are the codes' widths, and the parts that follow them.
        while 0 < pending {
            let code = basics::element(self.sheet, at);
            let x = basics::element(self.sheet, at + 1);
            if code == 0x21 {
                c = self.put_variable(x, part.step, steps, out, c)?;
            } else {
                c = put_code(out, c, flipped(code, part.flip), x)?;
            }
            pending = pending + scans::part_parts(code) - 1;
            at += scans::part_width(code);
        }
        Some(c)
    }

    // Puts what variable x of a step's summand is there: a quantified one, or a parameter after the steps
    // before. Where a process is laid out, the number of a quantified one is a byte.
    #[cycle(put_part_put_variable)]
    fn put_variable(
        self,
        x: u8,
        step: u8,
        steps: &[Listed; 128],
        out: &mut [u8; 256],
        count: usize,
    ) -> Option<usize>
        requires { (1 ≤ step) × (count ≤ 256) }
        ensures { Counted result (VariableTold self.entry.sheet.now self.entry.places.now x step steps.now
            out.old count out.new) }
    {
        if basics::element(self.sheet, 1) <= x {
            return put_two(
                out,
                count,
                0x21,
                step_at(steps, step).quantifiers.wrapping_add(x),
            );
        }
        if step == 1 {
            return put_two(out, count, 0x21, x);
        }
        let slot = usize::from(step_at(steps, step - 1).slot);
        let part = Part {
            at: basics::element(self.places, 5 * slot + 1 + usize::from(x)),
            step: step - 1,
            flip: false,
        };
        self.put_part(part, steps, out, count)
    }

    // Puts the instance of an equation at what the parameters are after so many steps.
    pub(crate) fn put_instance(
        self,
        equation: u8,
        depth: u8,
        steps: &[Listed; 128],
        out: &mut [u8; 256],
        count: usize,
    ) -> Option<usize>
        requires { depth ≤ 254 }
        ensures { Counted result (InstanceTold self.entry.sheet.now self.entry.places.now equation depth
            steps.now out.old count out.new) }
    {
        let k = basics::element(self.sheet, 1);
        let mut c = put_two(out, count, 0x1a, equation)?;
        c = put(out, c, k)?;
        for i in 0..k {
            c = self.put_variable(i, depth + 1, steps, out, c)?;
        }
        Some(c)
    }
}
