// The operations on a text that are lent records: what is lent, what comes back. Each prepares a model with
// its answer or a refusal, then writes the model's records in one place.
#![tactic(auto)]

ghost use Rattle.std.specs.Prelude.{◌≡◌, ◌<◌, ◌≤◌, length, IfSome};
ghost use Rattle.engine.specs.Examined.{whole};
ghost use Rattle.lending.specs.Records.{record_of, read_from, find_from};
ghost use Rattle.lending.specs.Promises.{Read, Checked, Found, Solved};
ghost use Rattle.lending.specs.Prepared.{filled, model_in, answer_in, read_told, room_judged};
ghost use Rattle.lending.specs.Prepared.{ReadPrepared, TablePrepared, SolvePrepared};

use answers::Answer;
use engine::{Examined, Refused};
use formulas::Equation;
use reading::Model;
use refusals::{Reason, Refusal};

// An equation as reading lends it: absent ranges are 1; place is that of the body's first digit in the text,
// length the body's bytes. Kept as the rules' numbers, the sign too: `record_of` names them.
#[derive(Clone, Copy)]
pub struct Record {
    pub sign: u8,
    pub k: u8,
    pub ranges: [u8; 4],
    pub place: usize,
    pub length: usize,
}

impl From<Equation> for Record {
    ghost from_gives = { λ e r. r ≡ record_of e };

    fn from(e: Equation) -> Record {
        let ranges = e.ranges;
        Record {
            sign: e.sign,
            k: e.k,
            ranges,
            place: e.place,
            length: e.length,
        }
    }
}

// The refusal that reading a text gives; both are 0 where it gives none. Kept as the rules' numbers:
// `read_answer` names them.
#[derive(Clone, Copy)]
pub struct ReadAnswer {
    pub number: u8,
    pub line: usize,
}

impl From<Answer> for ReadAnswer {
    ghost from_gives = { λ a r. r ≡ read_from a };

    fn from(a: Answer) -> ReadAnswer {
        ReadAnswer {
            number: a.number,
            line: a.line,
        }
    }
}

// The refusal that finding gives, or how many instances are reached; everything else is 0. Kept as the rules'
// numbers: `find_answer` names them.
#[derive(Clone, Copy)]
pub struct FindAnswer {
    pub number: u8,
    pub line: usize,
    pub reached: usize,
}

impl From<Answer> for FindAnswer {
    ghost from_gives = { λ a f. f ≡ find_from a };

    fn from(a: Answer) -> FindAnswer {
        FindAnswer {
            number: a.number,
            line: a.line,
            reached: a.reached,
        }
    }
}

// Reads a text and fills the lent records.
pub fn read(text: &[u8], records: &mut [Record]) -> ReadAnswer
    ensures { Read text.now records.old result records.new }
{
    let read = prepare_read(text, records.len());
    fill(records, read.ok());
    read_answer_of(read)
}

// Checks a text: fills the lent records, writes the reached instances into the lent table and answers.
pub fn check(text: &[u8], records: &mut [Record], table: &mut [u32]) -> Answer
    ensures { Checked text.now records.old table.old result
        records.new table.new }
{
    let examined = prepare_check(text, records.len(), table);
    fill(records, model_of(examined));
    answer_of(examined)
}

// Finds the reached instances of a text: writes them into the lent table, and fills the lent records.
pub fn find(text: &[u8], records: &mut [Record], table: &mut [u32]) -> FindAnswer
    ensures { Found text.now records.old table.old result
        records.new table.new }
{
    let examined = prepare_find(text, records.len(), table);
    fill(records, model_of(examined));
    FindAnswer::from(answer_of(examined))
}

// Solves the list that was found, which is not trusted: fills the lent records and answers as `check` does.
pub fn solve(text: &[u8], records: &mut [Record], list: &[u32]) -> Answer
    ensures { Solved text.now records.old list.now result
        records.new }
{
    let examined = prepare_solve(text, records.len(), list);
    fill(records, model_of(examined));
    answer_of(examined)
}

// Writes the records of a model, where there is one: the one place where lent records are written.
fn fill(records: &mut [Record], model: Option<Model>)
    requires { IfSome model (λ m. (m.count ≤ 8) × (m.count ≤ length records.old)) }
    ensures { records.new ≡ filled model records.old }
{
    let Some(model) = model else {
        return;
    };
    for i in 0..model.count {
        records[i] = Record::from(model.equations[i]);
    }
}

// On a refusal no record is written, whether or not a model was read.
fn model_of(examined: Result<Examined, Refused>) -> Option<Model>
    ensures { result ≡ model_in examined }
{
    Some(examined.ok()?.model)
}

fn answer_of(examined: Result<Examined, Refused>) -> Answer
    ensures { result ≡ answer_in examined }
{
    match examined {
        Ok(e) => e.answer,
        Err(r) => Answer::from(r.refusal),
    }
}

fn read_answer_of(read: Result<Model, Refusal>) -> ReadAnswer
    ensures { result ≡ read_told read }
{
    match read {
        Ok(_) => ReadAnswer { number: 0, line: 0 },
        Err(refusal) => ReadAnswer::from(Answer::from(refusal)),
    }
}

// The length of the lent list is judged before anything is read.
fn judge_room(room: usize) -> Result<(), Refusal>
    ensures { result ≡ room_judged room }
{
    if room < 8 {
        return Err(Refusal::from(Reason::WrongHead));
    }
    Ok(())
}

fn prepare_read(text: &[u8], room: usize) -> Result<Model, Refusal>
    ensures { ReadPrepared text.now room result }
{
    judge_room(room)?;
    let read = reading::read_model(text)?;
    let model = read.model;
    Ok(model)
}

// The table is touched only where the text is examined.
fn prepare_check(text: &[u8], room: usize, table: &mut [u32]) -> Result<Examined, Refused>
    ensures { TablePrepared whole text.now room table.old result
        table.new }
{
    judge_room(room)?;
    engine::examine(text, table)
}

fn prepare_find(text: &[u8], room: usize, table: &mut [u32]) -> Result<Examined, Refused>
    ensures { TablePrepared find_from text.now room table.old result
        table.new }
{
    judge_room(room)?;
    engine::find(text, table)
}

fn prepare_solve(text: &[u8], room: usize, list: &[u32]) -> Result<Examined, Refused>
    ensures { SolvePrepared text.now room list.now result }
{
    judge_room(room)?;
    engine::solve(text, list)
}
