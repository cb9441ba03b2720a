// From a process and a formula to a model: the text of the model is written into a lent buffer.
#![tactic(auto)]

ghost use Rattle.writing.specs.Writing.{reply_to};
ghost use Rattle.translator.specs.Answers.{Translates};
ghost use Rattle.translator.specs.Printed.{PrintsTranslation};

use refusals::{Reason, Refusal};
use writing::Writing;

// Translates the process and the formula of a text, and gives the length of the text written.
fn translated(text: &[u8], out: &mut [u8]) -> Result<usize, Refusal>
    ensures { Translates text.now out.old (reply_to result) out.new }
{
    let sheet = processes::read_input(text)?;
    let built = emitter::model_text(&sheet).ok_or(Reason::ModelTooLarge)?;
    if out.len() < built.length {
        return Err(Refusal::from(Reason::ShortBuffer));
    }
    Ok(writing::put(out, 0, &built.text[..built.length]))
}

// Translates the process and the formula of a text. Nothing is written on a refusal.
pub fn translate(text: &[u8], out: &mut [u8]) -> Writing
    ensures { Translates text.now out.old result out.new }
{
    Writing::from(translated(text, out))
}

// Writes what the command `translate` prints for a text, and gives the number of bytes written: the text of
// the model, or the line of the refusal. A buffer under 4,117 bytes, which is what the longest text takes,
// gives 0 and stays.
pub fn print_translation(text: &[u8], out: &mut [u8]) -> usize
    ensures { PrintsTranslation text.now out.old result out.new }
{
    if out.len() < 4117 {
        return 0;
    }
    let reply = translate(text, out);
    writing::show(reply, out)
}
