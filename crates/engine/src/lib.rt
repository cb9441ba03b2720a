// The check of a whole text: it is read and its bodies are prepared, its reached instances are found and
// solved, and the start is judged. And its two parts apart: finding alone, and solving a list that is lent.
#![tactic(auto)]

ghost use Rattle.std.specs.Prelude.{◌∷◌, ◌≡◌, ◌≤◌, length, take, is_some, unwrap_or, option_map, [], IfSome};
ghost use Rattle.std.specs.Prelude.{IfOk, None};
ghost use Rattle.meaning.specs.Words.{word};
ghost use Rattle.reading.specs.Records.{model_told};
ghost use Rattle.engine.specs.Examined.{judgement, number_found, whole, counted, ReadSomewhere};
ghost use Rattle.engine.specs.Examined.{JudgesModel, ExaminesModel, Examines, Solves};
ghost use Rattle.engine.specs.Told.{answer_told, told, both, due};

use answers::Answer;
use formulas::Tuple;
use reading::{Model, Start};
use refusals::{Reason, Refusal};

// What a text that is not refused gives: the answer, and the model that was read.
#[derive(Clone, Copy)]
pub struct Examined {
    pub answer: Answer,
    pub model: Model,
}

// Why a text is refused, or a list of it or the room, and the model, where one was read before.
#[derive(Clone, Copy)]
pub struct Refused {
    pub refusal: Refusal,
    pub model: Option<Model>,
}

// A text that is refused gives no model.
impl From<Refusal> for Refused {
    ghost from_gives = { λ refusal r. r ≡ record { refusal = refusal; model = None } };

    fn from(refusal: Refusal) -> Refused {
        Refused {
            refusal,
            model: None,
        }
    }
}

// The verdict over n instances of which the set has the true ones: that of the first.
fn judge(n: usize, truth: [u64; 8]) -> Answer
    ensures { result ≡ judgement n truth }
{
    let first = truth::has(truth, 0);
    let trues = truth::count(truth);
    Answer {
        number: 0,
        line: 0,
        verdict: u8::from(first),
        reached: n,
        trues,
        truth,
    }
}

// The word of a start.
fn start_word(s: Start) -> u32
    ensures { result ≡ word (s.equation ∷ take s.count s.arguments) }
{
    let [a, b, c, d] = s.arguments;
    let arguments = Tuple {
        values: [a, b, c, d, 0, 0, 0, 0],
        count: s.count.min(4),
    };
    words::word_of(s.equation, arguments)
}

// What finding alone answers: how many instances there are.
fn tell(count: usize) -> Answer
    ensures { result ≡ number_found count }
{
    Answer {
        number: 0,
        line: 0,
        verdict: 0,
        reached: count,
        trues: 0,
        truth: [0; 8],
    }
}

// Finds the reached instances of a model that was read, with its bodies. Kept beside `examine_model`: what
// they read is not drawn, since a list of one word is no graph, and a call takes less than half the stack so.
fn find_model(model: Model, bodies: &[u8], table: &mut [u32]) -> Result<Answer, Reason>
    requires { ReadSomewhere (model_told model) bodies.now }
    ensures judges { JudgesModel counted (model_told model) bodies.now table.old
        table.new (answer_told result) }
    ensures accepted { IfOk result (λ a. a.number ≡ 0) }
{
    let start = start_word(model.start);
    let prepared = preparing::prepare(bodies, model.equations);
    let mut no_graph = [0u64; 1];
    let Some(count) = finding::find(&prepared, model.equations, start, table, &mut no_graph) else {
        return Err(Reason::NoRoom);
    };
    Ok(tell(count))
}

// How many of the table's words are to be solved: as many as were found, where no other list is lent.
fn due(found: Option<usize>, table: &[u32], list: Option<&[u32]>) -> Result<usize, Reason>
    requires { IfSome found (λ n. n ≤ length table.now) }
    ensures { result ≡ due found table.now (option_map (λ l. l.now) list.entry) }
{
    let Some(list) = list else {
        return found.ok_or(Reason::NoRoom);
    };
    match found {
        Some(n) if list == &table[..n] => Ok(n),
        _ => Err(Reason::AnotherList),
    }
}

// The answer for a model that was read, with its bodies. Where a list is lent to be solved, it is compared
// with what is found anew, and what is solved is that.
fn examine_model(
    model: Model,
    bodies: &[u8],
    table: &mut [u32],
    list: Option<&[u32]>,
) -> Result<Answer, Reason>
    requires { ReadSomewhere (model_told model) bodies.now }
    ensures examines { ExaminesModel (model_told model) bodies.now table.old table.new
        (unwrap_or (option_map (λ l. l.now) list.entry) [])
        (is_some (option_map (λ l. l.now) list.entry)) (answer_told result) }
    ensures accepted { IfOk result (λ a. a.number ≡ 0) }
{
    let start = start_word(model.start);
    let prepared = preparing::prepare(bodies, model.equations);
    let mut graph = [0u64; 8272];
    let found = finding::find(&prepared, model.equations, start, table, &mut graph);
    let n = due(found, table, list)?;
    let truth = solving::solution_of(&prepared, model.equations, model.count, &table[..n], &graph);
    Ok(judge(n, truth))
}

// The answer for a model, or its refusal, with the model that was read.
fn with_model(answer: Result<Answer, Reason>, model: Model) -> Result<Examined, Refused>
    ensures told { told result ≡ both (answer_told answer) (model_told model) }
    ensures accepted { IfOk answer (λ a. a.number ≡ 0) → IfOk result (λ e. e.answer.number ≡ 0) }
{
    match answer {
        Ok(answer) => Ok(Examined { answer, model }),
        Err(reason) => Err(Refused {
            refusal: Refusal::from(reason),
            model: Some(model),
        }),
    }
}

// The whole check of a text with a lent table. Kept beside `find` and `solve`: what they share is one line,
// the reading, and what is judged differs.
pub fn examine(text: &[u8], table: &mut [u32]) -> Result<Examined, Refused>
    ensures examines { Examines whole text.now table.old (told result) table.new }
    ensures accepted { IfOk result (λ e. e.answer.number ≡ 0) }
{
    let read = reading::read_model(text)?;
    let answer = examine_model(read.model, &read.bodies, table, None);
    with_model(answer, read.model)
}

// Finds the reached instances of a text, with a lent table.
pub fn find(text: &[u8], table: &mut [u32]) -> Result<Examined, Refused>
    ensures examines { Examines counted text.now table.old (told result) table.new }
    ensures accepted { IfOk result (λ e. e.answer.number ≡ 0) }
{
    let read = reading::read_model(text)?;
    let answer = find_model(read.model, &read.bodies, table);
    with_model(answer, read.model)
}

// Solves a lent list of a text.
pub fn solve(text: &[u8], list: &[u32]) -> Result<Examined, Refused>
    ensures solves { Solves text.now list.now (told result) }
    ensures accepted { IfOk result (λ e. e.answer.number ≡ 0) }
{
    let mut table = [0u32; 512];
    let read = reading::read_model(text)?;
    let answer = examine_model(read.model, &read.bodies, &mut table, Some(list));
    with_model(answer, read.model)
}
