// The numbered system of a model's instances: the prepared bodies of its equations, what a word names among
// them, and the right side of a word's instance in a set of instances.
#![tactic(auto)]

ghost use Rattle.std.specs.Prelude.{◌≡◌};
ghost use Rattle.truth.specs.Bits.{bit_of};
ghost use Rattle.words.specs.Unpacked.{equation_number};
ghost use Rattle.prepared.specs.Prepared.{prepared_part};
ghost use Rattle.instances.specs.Sides.{is_true, side_of};

use formulas::Equation;

// The prepared body of the equation that a word names.
pub fn body_of(bodies: &[u8], w: u32) -> &[u8]
    ensures { result.now ≡ prepared_part bodies.now (equation_number w) }
{
    let first = (words::equation_number(w) * 512).min(bodies.len());
    let end = (first + 512).min(bodies.len());
    &bodies[first..end]
}

// Whether a value is true; one that is not known is not.
pub fn is_true(value: Option<bool>) -> bool
    ensures { result ≡ is_true value }
{
    value.unwrap_or(false)
}

// The right side of the instance with the word w; false where it names no equation.
pub fn right_side(
    bodies: &[u8],
    equations: [Equation; 8],
    w: u32,
    table: &[u32],
    truth: &[u64; 8],
) -> Option<bool>
    ensures { result ≡ side_of bodies.now equations table.now
        (bit_of truth.now) w }
{
    let e = words::equation_number(w);
    if 8 <= e {
        return Some(false);
    }
    let scope = words::argument_tuple(w, equations[e].k);
    evaluator::evaluate(body_of(bodies, w), scope, table, truth)
}
