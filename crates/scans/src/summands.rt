// The summands of a sheet, in the places 1 to 16: where their parts stand, and which of them match.
ghost use Rattle.std.specs.Prelude.{◌≡◌, ◌%◌, ◌≤◌, ◌<◌, IfSome, unwrap_or};
ghost use Rattle.scans.specs.Items.{part_parts, part_width};
ghost use Rattle.scans.specs.Summands.{EndsPart, PlaceTold, Places, IsOneOf, IsMatch};
ghost use Rattle.scans.specs.Summands.{Matches};

// How many parts follow a code in a condition or a term.
#[tactic(auto, unfolding(crate::specs::Items::part_parts))]
pub fn part_parts(code: u8) -> usize
    ensures { result ≡ part_parts code }
{
    match code {
        0x10 | 0x11 | 0x20 | 0x21 => 0,
        _ => 2,
    }
}

// How many bytes it takes: the code of a term has an operand.
#[tactic(auto, unfolding(crate::specs::Items::part_width))]
pub fn part_width(code: u8) -> usize
    ensures { result ≡ part_width code }
{
    if code < 0x20 { 1 } else { 2 }
}

// Where the condition or the term at a place of a summand's frame ends.
fn part_end(sheet: &[u8], slot: usize, at: usize) -> usize
    requires { (slot ≤ 16) × (at ≤ 512) }
    ensures { EndsPart sheet.now slot at result }
{
    let mut next = at;
    let mut pending: usize = 1;
    // A while: the step is the code's width.
    while 0 < pending && next < 256 {
        let code = basics::element(sheet, 256 * slot + next);
        pending = pending + part_parts(code) - 1;
        next += part_width(code);
    }
    next
}

// A place in a frame, as a byte: on a sheet that holds a process it is one.
fn as_byte(place: usize) -> u8
    ensures { result ≡ place % 256 }
{
    (place % 256) as u8
}

// Of a summand's five places number i, where `last` is the one before it: that of the action, after the
// condition, and those of the next-state terms. Kept as a number: it counts the places, as in `PlaceOf`.
fn place(sheet: &[u8], slot: usize, i: usize, last: u8) -> u8
    requires { slot ≤ 16 }
    ensures { PlaceTold sheet.now slot i last result }
{
    let before = usize::from(last);
    let own = usize::from(basics::element(sheet, 256 * slot + 1));
    match i {
        0 => as_byte(part_end(sheet, slot, 2 + own)),
        1 => as_byte(before + 1),
        _ => as_byte(part_end(sheet, slot, before)),
    }
}

// For each summand five places in its frame: of its action, then of its next-state terms. Those of the
// summand in place j of the sheet stand from 5 * j on.
pub fn places_of(sheet: &[u8]) -> [u8; 85]
    ensures { Places sheet.now result }
{
    let mut places = [0u8; 85];
    for j in 5..85 {
        places[j] = place(sheet, j / 5, j % 5, places[j - 1]);
    }
    places
}

// Whether an action is one of those that stand at a place of the formula: `11` any, `36 a` action a, `35 a`
// any other.
fn is_one_of(sheet: &[u8], at: u8, action: u8) -> bool
    ensures { IsOneOf sheet.now at action result }
{
    let from = 4352 + usize::from(at);
    let code = basics::element(sheet, from);
    let a = basics::element(sheet, from + 1);
    match code {
        0x35 => action != a,
        0x36 => action == a,
        _ => true,
    }
}

// Whether a summand stands in a place of the sheet whose action is one of those.
fn is_match(sheet: &[u8], places: &[u8], at: u8, slot: usize) -> bool
    requires { slot ≤ 16 }
    ensures { IsMatch sheet.now places.now at slot result }
{
    let first = 256 * slot;
    let there = basics::element(sheet, first) == 7;
    let p = usize::from(basics::element(places, 5 * slot));
    let action = basics::element(sheet, first + p);
    there && is_one_of(sheet, at, action)
}

// The first place of the sheet, from one on, that has a summand whose action is one of those at a place of
// the formula; none where no place has.
pub fn next_matching(sheet: &[u8], places: &[u8], at: u8, from: u8) -> Option<u8>
    ensures within { IfSome result (λ slot. slot < 17) }
    ensures first { Matches sheet.now places.now at from (unwrap_or result 17) }
{
    for slot in from..17 {
        if is_match(sheet, places, at, usize::from(slot)) {
            return Some(slot);
        }
    }
    None
}
