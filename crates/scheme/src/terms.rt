// What a policy says of the subject and the object that it is applied to.

// Which of the two objects of a policy is meant.
#[derive(Clone, Copy)]
pub enum Party {
    Subject,
    Object,
}

// An attribute of the subject or of the object, by the attribute's number.
#[derive(Clone, Copy)]
pub struct Term {
    pub party: Party,
    pub attribute: u8,
}

// What a predicate compares with, and what an action assigns. Three cases, and no `Term` in two of them: a
// form that the decisions fix (docs/DECISIONS.md, Forms).
#[derive(Clone, Copy)]
pub enum Operand {
    SubjectAttribute(u8),
    ObjectAttribute(u8),
    Constant(u8),
}

#[derive(Clone, Copy)]
pub enum Comparison {
    Equal,
    NotEqual,
    Less,
    AtMost,
    Greater,
    AtLeast,
}

#[derive(Clone, Copy)]
pub enum Predicate {
    Null(Term),
    Set(Term),
    Compare(Term, Comparison, Operand),
}

#[derive(Clone, Copy)]
pub enum Action {
    // `to` a number or a term's present value.
    Assign(Term, Operand),
    // `to` null.
    Clear(Term),
    Add(Term, u8),
    Sub(Term, u8),
    Destroy(Party),
}

// One line below a policy line.
#[derive(Clone, Copy)]
pub enum Clause {
    If(Predicate),
    Do(Action),
}
