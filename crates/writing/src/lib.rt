// What all operations share that write a text into a lent buffer: the reply, the bytes put, and what a
// command prints of a reply.
#![tactic(auto)]

ghost use Rattle.std.specs.Prelude.{◌≡◌, ◌+◌, leb};
ghost use Rattle.writing.specs.Writing.{refusal_reply, refusal_written, reply_to, BytesPut};
ghost use Rattle.writing.specs.Printed.{Shows};

use refusals::Refusal;

// The refusal, number and line 0 where there is none; and how many bytes were written, 0 after a refusal.
// Kept as numbers: the C interface hands them on, and the promise `Writes` names them.
#[derive(Clone, Copy)]
pub struct Writing {
    pub number: u8,
    pub line: usize,
    pub length: usize,
}

// A refusal: nothing was written.
// Kept beside the conversion below: a public function, of which the theorem `one_refuse` speaks.
pub fn refuse(number: u8, line: usize) -> Writing
    ensures { result ≡ refusal_reply number line }
{
    Writing {
        number,
        line,
        length: 0,
    }
}

// The reply to a refusal.
impl From<Refusal> for Writing {
    ghost from_gives = { λ refusal w. w ≡ refusal_written refusal };

    fn from(refusal: Refusal) -> Writing {
        refuse(u8::from(refusal.reason), refusal.line)
    }
}

// The reply of an operation that says how many bytes it wrote, or why it wrote none.
impl From<Result<usize, Refusal>> for Writing {
    ghost from_gives = { λ written w. w ≡ reply_to written };

    fn from(written: Result<usize, Refusal>) -> Writing {
        match written {
            Ok(length) => Writing {
                number: 0,
                line: 0,
                length,
            },
            Err(refusal) => Writing::from(refusal),
        }
    }
}

// Whether `count` bytes fit into `room` bytes from `at` on. Not the `fits` of frames, which counts two
// digits for a byte and one character for the end of the line.
fn fits(room: usize, at: usize, count: usize) -> bool
    ensures { result ≡ leb (at + count) room }
{
    at <= room && count <= room - at
}

// Puts some bytes into a buffer from a place on and gives the place after them. Where they do not fit,
// nothing is put and the place stays. Kept as a number: the promise `BytesPut` names the place for both.
pub fn put(out: &mut [u8], at: usize, bytes: &[u8]) -> usize
    ensures { BytesPut out.old at bytes.now result out.new }
{
    if !fits(out.len(), at, bytes.len()) {
        return at;
    }
    // By a loop: `copy_from_slice` between two lent places is a call of `memmove`, and the archive for C
    // would need one more name from outside.
    for i in 0..bytes.len() {
        out[at + i] = bytes[i];
    }
    at + bytes.len()
}

// What a command prints of a reply: the text that stands in the buffer, or the line of the refusal, put there
// from the first byte on. Gives the number of bytes.
// Printing makes the refusal's line too, but does not stand on this crate; each is one call of `put_line`.
pub fn show(reply: Writing, out: &mut [u8]) -> usize
    ensures { Shows reply out.old result out.new }
{
    if reply.number == 0 {
        return reply.length;
    }
    let [.., high, low] = reply.line.to_be_bytes();
    let frame = [6, reply.number, high, low];
    frames::put_line(out, 0, &frame)
}
