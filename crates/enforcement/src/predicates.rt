// Which predicates hold of a subject and an object that are there.
ghost use Rattle.std.specs.Prelude.{◌≡◌};
ghost use Rattle.enforcement.specs.Predicates.{meets, term_value, operand_value, holds_on, all_hold};
ghost use Rattle.enforcement.specs.Meanings.{subject_values, object_values};

use crate::parties::CodedPair;
use scheme::terms::{Comparison, Operand, Predicate, Term};

// What a predicate asks of its two values; `null` and `set` ask of the left one alone. All eight are cases
// of one match below: a form that the decisions fix (docs/DECISIONS.md, Forms).
#[derive(Clone, Copy)]
pub enum Operator {
    Null,
    Set,
    Compare(Comparison),
}

// A comparison with null on either side is false.
fn meets_operator(operator: Operator, left: Option<u8>, right: Option<u8>) -> bool
    ensures { result ≡ meets operator left right }
{
    match (operator, left, right) {
        (Operator::Null, None, _) => true,
        (Operator::Set, Some(_), _) => true,
        (Operator::Compare(Comparison::Equal), Some(x), Some(y)) if x == y => true,
        (Operator::Compare(Comparison::NotEqual), Some(x), Some(y)) if x != y => true,
        (Operator::Compare(Comparison::Less), Some(x), Some(y)) if x < y => true,
        (Operator::Compare(Comparison::AtMost), Some(x), Some(y)) if x <= y => true,
        (Operator::Compare(Comparison::Greater), Some(x), Some(y)) if x > y => true,
        (Operator::Compare(Comparison::AtLeast), Some(x), Some(y)) if x >= y => true,
        _ => false,
    }
}

impl<'a> CodedPair<'a> {
    // What is null where the object is absent, for a policy asks only of objects that are there.
    fn term_value(&self, term: Term) -> Option<u8>
        ensures { result ≡ term_value term (subject_values self.now) (object_values self.now) }
    {
        self.read(term).flatten()
    }

    fn operand_value(&self, operand: Operand) -> Option<u8>
        ensures { result ≡ operand_value operand (subject_values self.now) (object_values self.now) }
    {
        self.source(operand).flatten()
    }

    fn holds(&self, predicate: Predicate) -> bool
        ensures { result ≡ holds_on predicate (subject_values self.now) (object_values self.now) }
    {
        match predicate {
            Predicate::Null(term) => meets_operator(Operator::Null, self.term_value(term), None),
            Predicate::Set(term) => meets_operator(Operator::Set, self.term_value(term), None),
            Predicate::Compare(term, comparison, operand) => meets_operator(
                Operator::Compare(comparison),
                self.term_value(term),
                self.operand_value(operand),
            ),
        }
    }

    pub(crate) fn all_hold(&self, predicates: &[Predicate]) -> bool
        ensures { result ≡ all_hold predicates.now (subject_values self.now) (object_values self.now) }
    {
        predicates.iter().all(|predicate| self.holds(*predicate))
    }
}
