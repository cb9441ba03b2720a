// Preparing the bodies of a model's equations: where each formula and each term in them ends is found once,
// from the last place to the first.
#![tactic(auto)]

mod codes;

ghost use Rattle.std.specs.Prelude.{◌+◌, ◌≤◌, ◌<◌, ◌≡◌, length};
ghost use Rattle.prepared.specs.Decoded.{body_part};
ghost use Rattle.preparing.specs.Promise.{Prepares};
ghost use Rattle.preparing.specs.Ends.{after, Clear, Cut, Marked};

use codes::{parts_of, width_of};
use formulas::Equation;

// The place after so many formulas and terms in a row.
fn after(body: &[u8], parts: usize, from: usize) -> usize
    ensures { result ≡ after body.now parts from }
{
    let mut end = from;
    for _ in 0..parts {
        end = prepared::end_at(body, end);
    }
    end
}

// Writes where the formula or term at a place ends; of all later places that stands there.
// That a body has at most 256 bytes stands in three contracts: the type of a slice can't say so.
fn mark(body: &[u8], out: &mut [u8], at: usize)
    requires { (at < length body.now) × (length body.now ≤ 256) ×
        Marked body.now out.old (at + 1) }
    ensures { Marked body.now out.new at }
{
    let code = basics::element(body, at);
    let parts = parts_of(code, basics::element(body, at + 2));
    let end = after(out, parts, at + width_of(code));
    let next = end.min(256);
    out[256 + at] = (next - at - 1) as u8;
}

// Writes where each formula and term ends, from the last place to the first.
fn mark_all(body: &[u8], out: &mut [u8])
    requires { (length body.now ≤ 256) × Marked body.now out.old (length body.now) }
    ensures { Marked body.now out.new 0 }
{
    for at in (0..body.len()).rev() {
        mark(body, out, at);
    }
}

// A body is prepared. `out` is a part of all bodies' bytes, a slice: as an array it would have to be tested.
fn prepare_body(body: &[u8], out: &mut [u8])
    requires { (length body.now ≤ 256) × Clear out.old 512 }
    ensures { Marked body.now out.new 0 }
{
    out[..body.len()].copy_from_slice(body);
    mark_all(body, out);
}

// The body of equation number e, cut after 256 bytes.
fn body_of(bodies: &[u8], e: usize, size: usize) -> &[u8]
    requires { e < 8 }
    ensures { Cut (body_part bodies.now e size) result.now }
{
    let from = (e * 256).min(bodies.len());
    let room = size.min(256);
    let to = (from + room).min(bodies.len());
    &bodies[from..to]
}

// The bodies of eight equations are prepared, one after the other.
fn prepare_all(bodies: &[u8], equations: [Equation; 8], all: &mut [u8])
    requires { Clear all.old 4096 }
    ensures { Prepares bodies.now equations all.new }
{
    for e in 0..8 {
        let first = e * 512;
        let body = body_of(bodies, e, equations[e].length);
        prepare_body(body, &mut all[first..first + 512]);
    }
}

// The bodies of eight equations, prepared.
pub fn prepare(bodies: &[u8], equations: [Equation; 8]) -> [u8; 4096]
    ensures { Prepares bodies.now equations result }
{
    let mut all = [0u8; 4096];
    prepare_all(bodies, equations, &mut all);
    all
}
