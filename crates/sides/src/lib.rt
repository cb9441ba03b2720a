// The right sides of a translated model, put as bytes: a formula calls on the formulas inside it, a box or a
// diamond once for each matching summand. The steps around a formula stand in a list.
#![tactic(auto)]

mod parts;
mod putting;

ghost use Rattle.std.specs.Prelude.{◌≡◌, ◌+◌, ◌*◌, ◌≤◌, ◌<◌, get_or};
ghost use Rattle.sides.specs.Emitted.{Counted};
ghost use Rattle.sides.specs.Told.{equation_number, inner_place, inside, moved};
ghost use Rattle.sides.specs.Told.{Ready, QuantifiersTold, StepTold, FixedTold, SideTold, BothTold};
ghost use Rattle.sides.specs.Told.{ConnectiveTold, SummandsTold, RightSide};

use putting::{either_code, put, put_two};

// What is read: a sheet on which a process and a formula are laid out, and the places of the parts of its
// summands.
#[derive(Clone, Copy)]
struct Source<'a> {
    sheet: &'a [u8],
    places: &'a [u8],
}

// A condition or a term at a place of the frame of a step's summand; the condition is negated where `flip`.
// Steps count from 1.
#[derive(Clone, Copy)]
struct Part {
    at: u8,
    step: u8,
    flip: bool,
}

// A step around a formula: the place of its summand in the sheet, and how many quantifiers are around it.
#[derive(Clone, Copy)]
struct Listed {
    slot: u8,
    quantifiers: u8,
}

// What `nth_step` says of a step that is not there.
const NO_STEP: Listed = Listed {
    slot: 0,
    quantifiers: 0,
};

// Where a formula stands, counted from the first byte of the formula's frame; the number of its first fixed
// point; how many steps and how many quantifiers are around it.
#[derive(Clone, Copy)]
struct Spot {
    at: u8,
    number: u8,
    depth: u8,
    q: u8,
}

impl Spot {
    // The spot of the formula inside a box or a diamond, after the step of a summand that has `own` variables
    // of its own.
    fn inside(self, inner: u8, own: u8) -> Spot
        requires { (self.depth < 255) × (self.q + own ≤ 4) }
        ensures { result ≡ inside self inner own }
    {
        Spot {
            at: inner,
            depth: self.depth + 1,
            q: self.q + own,
            ..self
        }
    }

    // The spot of another formula under the same steps, after so many fixed points.
    fn moved(self, at: u8, count: usize) -> Spot
        requires { count ≤ 256 }
        ensures { (self.number + count ≤ 255 → result ≡ moved self at count) × (result.at ≡ at)
            × (result.depth ≡ self.depth) }
    {
        Spot {
            at,
            number: ((usize::from(self.number) + count) % 256) as u8,
            ..self
        }
    }
}

impl Source<'_> {
    // The code of the formula at a spot.
    fn code(self, spot: Spot) -> u8
        ensures { result ≡ get_or self.entry.sheet.now (4352 + spot.at) 0 }
    {
        basics::element(self.sheet, 4352 + usize::from(spot.at))
    }

    // How many variables of its own the summand in a place of the sheet has.
    fn own(self, slot: u8) -> u8
        ensures { result ≡ get_or self.entry.sheet.now (256 * slot + 1) 0 }
    {
        basics::element(self.sheet, 256 * usize::from(slot) + 1)
    }

    // The equation of a fixed point: one more than its number, where the formula begins with no fixed point.
    fn equation_number(self, number: u8) -> u8
        ensures { number < 255 → result ≡ equation_number self.entry.sheet.now number }
    {
        if scans::is_fixed(basics::element(self.sheet, 4353)) {
            number
        } else {
            number.wrapping_add(1)
        }
    }

    // Where the formula inside a box or a diamond stands: behind `11`, or behind a code and an action.
    fn inner_place(self, at: u8) -> usize
        ensures { result ≡ inner_place self.entry.sheet.now at }
    {
        let at = usize::from(at);
        if basics::element(self.sheet, 4353 + at) == 0x11 {
            at + 2
        } else {
            at + 3
        }
    }

    // A quantifier for each of the own variables of the summand in a place of the sheet, the first outermost.
    fn put_quantifiers(
        self,
        slot: u8,
        all: bool,
        out: &mut [u8; 256],
        count: usize,
    ) -> Option<usize>
        requires { count ≤ 256 }
        ensures { Counted result (QuantifiersTold self.entry.sheet.now slot all out.old count out.new) }
    {
        let first = 256 * usize::from(slot) + 2;
        let code = either_code(all, 0x14, 0x15);
        let own = usize::from(self.own(slot));
        let mut c = count;
        // Over the numbers, and not over a slice: past the end of a shorter sheet stand zeros.
        for i in 0..own {
            c = put_two(out, c, code, basics::element(self.sheet, first + i))?;
        }
        Some(c)
    }

    // Puts one step: the quantifiers of the summand's own variables, a connective, and the condition, negated
    // in a box; the step is written down behind those around it. A fifth quantifier gives none.
    fn put_step(
        self,
        spot: Spot,
        slot: u8,
        steps: &mut [Listed; 128],
        out: &mut [u8; 256],
        count: usize,
    ) -> Option<usize>
        requires { Ready spot count }
        ensures { Counted result (StepTold self.entry.sheet.now self.entry.places.now spot slot steps.old
            out.old count steps.new out.new) }
    {
        let all = self.code(spot) == 0x30;
        let own = self.own(slot);
        if 4 < usize::from(spot.q) + usize::from(own) {
            return None;
        }
        let mut c = self.put_quantifiers(slot, all, out, count)?;
        c = put(out, c, either_code(all, 0x13, 0x12))?;
        steps[usize::from(spot.depth)] = Listed {
            slot,
            quantifiers: spot.q,
        };
        let condition = Part {
            at: 2 + own,
            step: spot.depth + 1,
            flip: all,
        };
        self.put_part(condition, steps, out, c)
    }

    // Puts the instance of the equation of a fixed point.
    fn put_fixed(
        self,
        spot: Spot,
        number: u8,
        steps: &[Listed; 128],
        out: &mut [u8; 256],
        count: usize,
    ) -> Option<usize>
        requires { spot.depth ≤ 254 }
        ensures { Counted result (FixedTold self.entry.sheet.now self.entry.places.now spot number steps.now
            out.old count out.new) }
    {
        self.put_instance(self.equation_number(number), spot.depth, steps, out, count)
    }

    // Puts the formula at a spot. Put into its callers, so that a box takes one frame of the stack, not two.
    #[inline(always)]
    #[cycle(put_both_put_side_put_summands)]
    fn put_side(
        self,
        spot: Spot,
        steps: &mut [Listed; 128],
        out: &mut [u8; 256],
        count: usize,
    ) -> Option<usize>
        requires { Ready spot count }
        ensures { Counted result (SideTold self.entry.sheet.now self.entry.places.now spot steps.old
            out.old count steps.new out.new) }
    {
        let code = self.code(spot);
        match code {
            0x12 | 0x13 => self.put_both(spot, steps, out, count),
            0x30 | 0x31 => self.put_summands(spot, 1, steps, out, count),
            0x32 | 0x33 => self.put_fixed(spot, spot.number, steps, out, count),
            0x34 => {
                let number = basics::element(self.sheet, 4353 + usize::from(spot.at));
                self.put_fixed(spot, number, steps, out, count)
            }
            _ => put(out, count, code),
        }
    }

    // Puts an `and` or an `or`: its code, and both formulas.
    #[cycle(put_both_put_side_put_summands)]
    fn put_both(
        self,
        spot: Spot,
        steps: &mut [Listed; 128],
        out: &mut [u8; 256],
        count: usize,
    ) -> Option<usize>
        requires { Ready spot count }
        ensures { Counted result (BothTold self.entry.sheet.now self.entry.places.now spot steps.old
            out.old count steps.new out.new) }
    {
        let at = spot.at.checked_add(1)?;
        let c = put(out, count, self.code(spot))?;
        let d = self.put_side(Spot { at, ..spot }, steps, out, c)?;
        let s = scans::skip(self.sheet, at);
        let next = u8::try_from(s.next).ok()?;
        let second = spot.moved(next, s.count);
        self.put_side(second, steps, out, d)
    }

    // Puts a box or a diamond over the matching summands from a place of the sheet on: for each of them a
    // step and the formula inside, joined in their order and nested to the right; where there is none, true
    // for a box and false for a diamond.
    #[cycle(put_both_put_side_put_summands)]
    fn put_summands(
        self,
        spot: Spot,
        from: u8,
        steps: &mut [Listed; 128],
        out: &mut [u8; 256],
        count: usize,
    ) -> Option<usize>
        requires { Ready spot count × (from ≤ 17) }
        ensures { Counted result (SummandsTold self.entry.sheet.now self.entry.places.now spot from
            steps.old out.old count steps.new out.new) }
    {
        let inner = u8::try_from(self.inner_place(spot.at)).ok()?;
        let all = self.code(spot) == 0x30;
        let Some(slot) = scans::next_matching(self.sheet, self.places, spot.at + 1, from) else {
            return put(out, count, either_code(all, 0x11, 0x10));
        };
        let next = scans::next_matching(self.sheet, self.places, spot.at + 1, slot + 1);
        let c = put_connective(all, next.is_some(), out, count)?;
        let d = self.put_step(spot, slot, steps, out, c)?;
        let e = self.put_side(spot.inside(inner, self.own(slot)), steps, out, d)?;
        match next {
            Some(next) => self.put_summands(spot, next, steps, out, e),
            None => Some(e),
        }
    }
}

// Puts the connective before a step, where there are more steps behind it.
fn put_connective(all: bool, more: bool, out: &mut [u8; 256], count: usize) -> Option<usize>
    requires { count ≤ 256 }
    ensures { Counted result (ConnectiveTold all more out.old count out.new) }
{
    if more {
        put(out, count, either_code(all, 0x12, 0x13))
    } else {
        Some(count)
    }
}

// The right side of an equation: puts the formula at a place of the formula's frame, whose first fixed point
// has this number, behind the `count` bytes that are in the frame, and gives their number then; none where it
// does not fit. The frame is lent as a slice, as `RightSide` speaks of one of any length: none is given where
// it has not 256 bytes.
pub fn put_right_side(
    sheet: &[u8],
    places: &[u8],
    at: u8,
    number: u8,
    out: &mut [u8],
    count: usize,
) -> Option<usize>
    ensures { Counted result (RightSide sheet.now places.now at number out.old count out.new) }
{
    if 256 < count {
        return None;
    }
    let spot = Spot {
        at,
        number,
        depth: 0,
        q: 0,
    };
    Source { sheet, places }.put_side(spot, &mut [NO_STEP; 128], out.as_mut_array()?, count)
}
