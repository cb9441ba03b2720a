// The text of the model of a process and a formula, from the sheet on which they are laid out: one line for
// each equation, then the start.
#![tactic(auto)]

ghost use Rattle.std.specs.Prelude.{◌≡◌, ◌≤◌, replicate, min, get_or};
ghost use Rattle.emitter.specs.Built.{ModelTold, CountTold, FixedTold, HeadTold, HeadPut};
ghost use Rattle.emitter.specs.Built.{EquationPut, EquationsPut, StartPut};

// The text of a model that is within the limits, zeros after it, and how long that is: memory is fixed.
#[derive(Clone, Copy)]
pub struct Built {
    pub length: usize,
    pub text: [u8; 4117],
}

// Of an equation: its sign, the place of its formula, counted from the first byte of the formula's frame, and
// the number of the first fixed point in it.
#[derive(Clone, Copy)]
struct Head {
    sign: u8,
    at: u8,
    number: u8,
}

// How many equations the model has: one for each fixed point, one more where the formula begins with none.
fn count_equations(sheet: &[u8]) -> usize
    ensures { CountTold sheet.now result }
{
    let count = scans::skip(sheet, 1).count;
    if scans::is_fixed(basics::element(sheet, 4353)) {
        count
    } else {
        count + 1
    }
}

// The equation of the fixed point with this number; none where there are not so many.
fn fixed_head(sheet: &[u8], number: usize) -> Option<Head>
    requires { number ≤ 8 }
    ensures { FixedTold sheet.now number result }
{
    let at = scans::find_fixed(sheet, number)?;
    let greatest = basics::element(sheet, 4352 + at) == 0x33;
    Some(Head {
        sign: u8::from(greatest),
        at: u8::try_from(at + 1).ok()?,
        number: (number + 1) as u8,
    })
}

// The equation with this number; where the formula begins with no fixed point, the first is greatest and has
// the whole formula.
fn head_of(sheet: &[u8], e: usize) -> Option<Head>
    requires { e ≤ 8 }
    ensures { HeadTold sheet.now e result }
{
    if scans::is_fixed(basics::element(sheet, 4353)) {
        return fixed_head(sheet, e);
    }
    if e == 0 {
        return Some(Head {
            sign: 1,
            at: 1,
            number: 0,
        });
    }
    fixed_head(sheet, e - 1)
}

// How many parameters there are: at most four on a sheet on which a process is laid out.
fn parameters(sheet: &[u8]) -> u8
    ensures { result ≡ min (get_or sheet.now 1 0) 4 }
{
    basics::element(sheet, 1).min(4)
}

// Puts what an equation's frame begins with: `01`, the sign, and the parameters' number and ranges.
fn put_head(sheet: &[u8], sign: u8, frame: &mut [u8; 256]) -> usize
    ensures { HeadPut sheet.now sign frame.old frame.new result }
{
    let k = parameters(sheet);
    frame[0] = 1;
    frame[1] = sign;
    frame[2] = k;
    let count = usize::from(k);
    // Over the numbers, and not over a slice: past the end of a shorter sheet stand zeros.
    for i in 0..count {
        frame[3 + i] = basics::element(sheet, 2 + i);
    }
    3 + count
}

// Puts the frame of an equation, and gives how many bytes it has; none where it is not within the limits.
fn put_equation(sheet: &[u8], places: &[u8], e: usize, frame: &mut [u8; 256]) -> Option<usize>
    requires { e ≤ 8 }
    ensures { EquationPut sheet.now places.now e frame.new result }
{
    let head = head_of(sheet, e)?;
    let count = put_head(sheet, head.sign, frame);
    sides::put_right_side(sheet, places, head.at, head.number, frame, count)
}

// Puts the lines of the first `count` equations, and gives where they end; none where one of them is not
// within the limits.
fn put_equations(sheet: &[u8], places: &[u8], count: usize, text: &mut [u8]) -> Option<usize>
    requires { (count ≤ 8) × (text.old ≡ replicate 4117 0) }
    ensures { EquationsPut sheet.now places.now count text.new result }
{
    let mut at = 0;
    for e in 0..count {
        let mut frame = [0u8; 256];
        let size = put_equation(sheet, places, e, &mut frame)?;
        at = frames::put_line(text, at, &frame[..size]);
    }
    Some(at)
}

// Puts the line of the start: `02`, equation 0, and the initial values.
fn put_start(sheet: &[u8], text: &mut [u8], at: usize) -> usize
    ensures { StartPut sheet.now text.old at text.new result }
{
    let k = usize::from(parameters(sheet));
    let a = basics::element(sheet, 2 + k);
    let b = basics::element(sheet, 3 + k);
    let c = basics::element(sheet, 4 + k);
    let d = basics::element(sheet, 5 + k);
    let frame = [2, 0, a, b, c, d];
    frames::put_line(text, at, &frame[..2 + k])
}

// The text of the model of what is laid out on a sheet; none where the model is not within the limits.
pub fn model_text(sheet: &[u8]) -> Option<Built>
    ensures { ModelTold sheet.now result }
{
    let count = count_equations(sheet);
    if 8 < count {
        return None;
    }
    let places = scans::places_of(sheet);
    let mut text = [0u8; 4117];
    let at = put_equations(sheet, &places, count, &mut text)?;
    let length = put_start(sheet, &mut text, at);
    Some(Built { length, text })
}
