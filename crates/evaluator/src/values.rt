// The values of a formula, and how connectives join them.
ghost use Rattle.std.specs.Prelude.{◌≡◌};
ghost use Rattle.evaluator.specs.Values.{join_value, decides};
ghost use Rattle.evaluator.specs.Folds.{joined_values};

use looked::Looked;

// The `and` (the `or`, where `all` is false) of two values: one that is known is dropped, or it decides.
fn join(all: bool, a: Option<bool>, b: Option<bool>) -> Option<bool>
    ensures { result ≡ join_value all a b }
{
    match (a, b) {
        (Some(x), other) | (other, Some(x)) => if x == all { other } else { Some(x) },
        (None, None) => None,
    }
}

// The value of two parts together, and the variables that were looked at for both.
pub(crate) fn joined(
    all: bool,
    a: Looked<Option<bool>>,
    b: Looked<Option<bool>>,
) -> Looked<Option<bool>>
    ensures { result ≡ joined_values all a b }
{
    Looked {
        value: join(all, a.value, b.value),
        looked: looked::both(a.looked, b.looked),
    }
}

// Whether one part decides the whole: false in an `and`, true in an `or`.
pub(crate) fn decides(all: bool, a: Option<bool>) -> bool
    ensures { result ≡ decides all a }
{
    a == Some(!all)
}
