// Steps of plans that are equal.
ghost use Rattle.std.specs.Prelude.{◌≡◌, true};

use lrp_model::{DataTerm, Step, StepKind, Term, Test, TimeTerm};

/// Whether the steps are equal. Those of a sort and the last one of a plan are never told to be.
pub(crate) fn is_same_step(left: &Step, right: &Step) -> bool
    ensures { result ≡ true → left.now ≡ right.now }
{
    left.period == right.period
        && left.reach == right.reach
        && is_same_kind(&left.kind, &right.kind)
}

fn is_same_kind(left: &StepKind, right: &StepKind) -> bool
    ensures { result ≡ true → left.now ≡ right.now }
{
    match left {
        StepKind::Scan { relation, terms } => match right {
            StepKind::Scan {
                relation: other,
                terms: others,
            } => relation == other && are_same_terms(terms.as_slice(), others.as_slice()),
            _ => false,
        },
        StepKind::Leaf { test } => match right {
            StepKind::Leaf { test: other } => is_same_test(test, other),
            _ => false,
        },
        StepKind::Join {
            left: first,
            right: second,
            tests,
        } => match right {
            StepKind::Join {
                left: other,
                right: another,
                tests: others,
            } => *first == *other
                && *second == *another
                && are_same_tests(tests.as_slice(), others.as_slice()),
            _ => false,
        },
        StepKind::Select { of, test } => match right {
            StepKind::Select {
                of: from,
                test: other,
            } => *of == *from && is_same_test(test, other),
            _ => false,
        },
        StepKind::Union {
            left: first,
            right: second,
        } => match right {
            StepKind::Union {
                left: other,
                right: another,
            } => *first == *other && *second == *another,
            _ => false,
        },
        StepKind::Minus {
            left: first,
            right: second,
        } => match right {
            StepKind::Minus {
                left: other,
                right: another,
            } => *first == *other && *second == *another,
            _ => false,
        },
        StepKind::Complement { of } => match right {
            StepKind::Complement { of: from } => *of == *from,
            _ => false,
        },
        StepKind::DropTime { of, name } => match right {
            StepKind::DropTime {
                of: from,
                name: other,
            } => *of == *from && name == other,
            _ => false,
        },
        StepKind::DropData { of, name } => match right {
            StepKind::DropData {
                of: from,
                name: other,
            } => *of == *from && name == other,
            _ => false,
        },
        _ => false,
    }
}

fn are_same_tests(left: &[Test], right: &[Test]) -> bool
    ensures { result ≡ true → left.now ≡ right.now }
{
    if left.len() != right.len() {
        return false;
    }
    for i in 0..left.len() {
        if !is_same_test(&left[i], &right[i]) {
            return false;
        }
    }
    true
}

fn is_same_test(left: &Test, right: &Test) -> bool
    ensures { result ≡ true → left.now ≡ right.now }
{
    match left {
        Test::Compare {
            left: first,
            op,
            right: second,
        } => match right {
            Test::Compare {
                left: other,
                op: by,
                right: another,
            } => is_same_time(first, other) && *op == *by && is_same_time(second, another),
            _ => false,
        },
        Test::Member { term, point } => match right {
            Test::Member {
                term: other,
                point: at,
            } => is_same_time(term, other) && *point == *at,
            _ => false,
        },
        Test::Equal {
            left: first,
            right: second,
        } => match right {
            Test::Equal {
                left: other,
                right: another,
            } => is_same_text(first, other) && is_same_text(second, another),
            _ => false,
        },
    }
}

fn are_same_terms(left: &[Term], right: &[Term]) -> bool
    ensures { result ≡ true → left.now ≡ right.now }
{
    if left.len() != right.len() {
        return false;
    }
    for i in 0..left.len() {
        if !is_same_term(&left[i], &right[i]) {
            return false;
        }
    }
    true
}

fn is_same_term(left: &Term, right: &Term) -> bool
    ensures { result ≡ true → left.now ≡ right.now }
{
    match left {
        Term::Time { term } => match right {
            Term::Time { term: other } => is_same_time(term, other),
            _ => false,
        },
        Term::Data { term } => match right {
            Term::Data { term: other } => is_same_text(term, other),
            _ => false,
        },
    }
}

fn is_same_time(left: &TimeTerm, right: &TimeTerm) -> bool
    ensures { result ≡ true → left.now ≡ right.now }
{
    match left {
        TimeTerm::Var { name, plus } => match right {
            TimeTerm::Var {
                name: other,
                plus: more,
            } => name == other && *plus == *more,
            _ => false,
        },
        TimeTerm::Int { value } => match right {
            TimeTerm::Int { value: other } => *value == *other,
            _ => false,
        },
    }
}

fn is_same_text(left: &DataTerm, right: &DataTerm) -> bool
    ensures { result ≡ true → left.now ≡ right.now }
{
    match left {
        DataTerm::Var { name } => match right {
            DataTerm::Var { name: other } => name == other,
            _ => false,
        },
        DataTerm::Const { text } => match right {
            DataTerm::Const { text: other } => text == other,
            _ => false,
        },
    }
}
