//! Whether two parts of jobs are one.
ghost use Rattle.std.specs.Prelude.{◌≡◌};
ghost use Rattle.std.specs.Bool.{MatchBool};

use fab_base::{Object, Oid, Value};
use fab_tree::resolved::Request;

/// Whether two values are one.
fn is_same_value(a: &Value, b: &Value) -> bool
    ensures { MatchBool result (a.now ≡ b.now) (a.now ≡ b.now → ⊥) }
{
    a == b
}

/// Whether two lists of values are one.
fn are_same_values(a: &[Value], b: &[Value]) -> bool
    ensures { MatchBool result (a.now ≡ b.now) (a.now ≡ b.now → ⊥) }
{
    let mut left = a;
    let mut right = b;
    'values: while let Some((one, more)) = left.split_first() {
        let Some((other, others)) = right.split_first() else {
            return false;
        };
        if !is_same_value(one, other) {
            return false;
        }
        left = more;
        right = others;
    }
    right.is_empty()
}

/// Whether two requests are one.
pub fn is_same_request(a: &Request, b: &Request) -> bool
    ensures { MatchBool result (a.now ≡ b.now) (a.now ≡ b.now → ⊥) }
{
    a.worker == b.worker
        && a.number == b.number
        && a.method == b.method
        && are_same_values(a.args.as_slice(), b.args.as_slice())
}

/// Whether two names are one.
pub(crate) fn is_same_oid(a: Oid, b: Oid) -> bool
    ensures { MatchBool result (a ≡ b) (a ≡ b → ⊥) }
{
    a == b
}

/// Whether two answers are one.
fn is_same_answer(a: &(Oid, u32, Object), b: &(Oid, u32, Object)) -> bool
    ensures { MatchBool result (a.now ≡ b.now) (a.now ≡ b.now → ⊥) }
{
    is_same_oid(a.0, b.0)
        && a.1 == b.1
        && a.2.class == b.2.class
        && are_same_values(a.2.fields.as_slice(), b.2.fields.as_slice())
}

/// Whether two lists of answers are one.
pub fn are_same_answers(a: &[(Oid, u32, Object)], b: &[(Oid, u32, Object)]) -> bool
    ensures { MatchBool result (a.now ≡ b.now) (a.now ≡ b.now → ⊥) }
{
    let mut left = a;
    let mut right = b;
    'answers: while let Some((one, more)) = left.split_first() {
        let Some((other, others)) = right.split_first() else {
            return false;
        };
        if !is_same_answer(one, other) {
            return false;
        }
        left = more;
        right = others;
    }
    right.is_empty()
}
