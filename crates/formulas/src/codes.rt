// What each code begins, and how many operands come after it, in one table.
ghost use Rattle.std.specs.Prelude.{◌≡◌};
ghost use Rattle.formulas.specs.Codes.{row_of, kind_of, term_kind_of, operands_of};
ghost use Rattle.formulas.specs.Contract.{told_row};

use crate::{Kind, TermKind, Test};

// What a code begins, and how many operands come after it.
#[derive(Clone, Copy)]
enum Row {
    Formula(Kind, u8),
    Term(TermKind, u8),
}

// The codes from 10 to 23.
static ROWS: [Option<Row>; 20] = [
    Some(Row::Formula(Kind::Constant(false), 0)),
    Some(Row::Formula(Kind::Constant(true), 0)),
    Some(Row::Formula(Kind::Join(true), 2)),
    Some(Row::Formula(Kind::Join(false), 2)),
    Some(Row::Formula(Kind::Quantifier(true), 2)),
    Some(Row::Formula(Kind::Quantifier(false), 2)),
    Some(Row::Formula(Kind::Compare(Test::Equal), 2)),
    Some(Row::Formula(Kind::Compare(Test::Less), 2)),
    Some(Row::Formula(Kind::Compare(Test::Unequal), 2)),
    Some(Row::Formula(Kind::Compare(Test::NotLess), 2)),
    Some(Row::Formula(Kind::Instance, 2)),
    None,
    None,
    None,
    None,
    None,
    Some(Row::Term(TermKind::Number, 1)),
    Some(Row::Term(TermKind::Variable, 1)),
    Some(Row::Term(TermKind::Calculation(true), 3)),
    Some(Row::Term(TermKind::Calculation(false), 3)),
];

// Codes below and past those of the table begin nothing.
fn row_of(code: u8) -> Option<Row>
    ensures { told_row result ≡ row_of code }
{
    if 0x10 <= code && code <= 0x23 {
        ROWS[usize::from(code - 0x10)]
    } else {
        None
    }
}

pub fn kind_of(code: u8) -> Option<Kind>
    ensures { result ≡ kind_of code }
{
    match row_of(code) {
        Some(Row::Formula(kind, _)) => Some(kind),
        _ => None,
    }
}

pub fn term_kind_of(code: u8) -> Option<TermKind>
    ensures { result ≡ term_kind_of code }
{
    match row_of(code) {
        Some(Row::Term(kind, _)) => Some(kind),
        _ => None,
    }
}

// Of a code that begins nothing, 0: the definition `operands_of` says so.
pub fn operands_of(code: u8) -> u8
    ensures { result ≡ operands_of code }
{
    match row_of(code) {
        Some(Row::Formula(_, operands) | Row::Term(_, operands)) => operands,
        None => 0,
    }
}
