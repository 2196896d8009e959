// What a line without a fault declares. A word of another form than its place asks for stands for something
// all the same, as in the definitions, which are total: no such line is read.
ghost use Rattle.std.specs.Prelude.{◌≡◌};
ghost use Rattle.bounded.specs.Items.{items};
ghost use Rattle.scheme.specs.Declarations.{kind_of, with_declaration};
ghost use Rattle.scheme.specs.Models.{attribute_of, object_of, names_of};
ghost use Rattle.words.specs.Positions.{word_of, word_in};
ghost use Rattle.text.specs.Candidates.{above, its_kind, its_words};
ghost use Rattle.text.specs.Declaring.{number_among, term_in, operand_in, values_at, attribute_in, object_in, test_in, compare_in, predicate_in, source_in, action_in, query_in, declared};

use crate::candidate::Candidate;
use crate::meaning::{comparison_of, name_of, number_of, party_of, value_of};
use bounded::Bounded;
use scheme::declaration::Declaration;
use scheme::entries::{Attribute, Object, Query};
use scheme::kind::Kind;
use scheme::terms::{Action, Clause, Operand, Party, Predicate, Term};
use words::position::Word;
use words::token::Token;

impl<'a> Candidate<'a> {
    fn word(self, index: usize) -> Word<'a>
        ensures { word_of result ≡ word_in (its_words self.entry) index }
    {
        self.statement.line.word(index)
    }

    // The number of the entry of this kind with this name, 0 where there is none.
    fn number_among(self, kind: Kind, name: &[u8]) -> u8
        ensures { result ≡ number_among name.now (names_of kind (above self.entry)) }
    {
        self.draft.find(kind, name).unwrap_or(0) as u8
    }

    // The number of the entry of this kind that the word at an index names.
    fn number_named(self, kind: Kind, index: usize) -> u32
        ensures { result ≡ number_among (word_in (its_words self.entry) index).bytes (names_of kind (above self.entry)) }
    {
        u32::from(self.number_among(kind, self.word(index).bytes))
    }

    fn term(self, index: usize) -> Term
        ensures { result ≡ term_in (above self.entry) (word_in (its_words self.entry) index) }
    {
        match Token::from(self.word(index)) {
            Token::Term(_, party, name) => Term {
                party,
                attribute: self.number_among(Kind::Attr, name),
            },
            _ => Term {
                party: Party::Subject,
                attribute: 0,
            },
        }
    }

    fn operand(self, index: usize) -> Operand
        ensures { result ≡ operand_in (above self.entry) (word_in (its_words self.entry) index) }
    {
        match Token::from(self.word(index)) {
            Token::Term(_, party, name) => {
                let attribute = self.number_among(Kind::Attr, name);
                match party {
                    Party::Subject => Operand::SubjectAttribute(attribute),
                    Party::Object => Operand::ObjectAttribute(attribute),
                }
            }
            Token::Number(_, number) => Operand::Constant(number),
            _ => Operand::Constant(0),
        }
    }

    fn attribute(self) -> Attribute
        ensures { attribute_of result ≡ attribute_in (its_words self.entry) }
    {
        Attribute {
            name: name_of(self.word(1)),
            size: number_of(self.word(2)),
        }
    }

    // A value or null for each attribute, by the words from index 2 on. An attribute past the last
    // word has one too: so the words are not gone through beside the attributes.
    fn values(self) -> Bounded<Option<u8>, 4>
        ensures { items result ≡ values_at 2 (above self.entry).attributes (its_words self.entry) }
    {
        let indices = 2..2 + self.draft.attributes().len();
        Bounded::collect(None, indices.map(|index| value_of(self.word(index)))).unwrap()
    }

    fn object(self) -> Object
        ensures { object_of result ≡ object_in (above self.entry) (its_words self.entry) }
    {
        Object {
            name: name_of(self.word(1)),
            values: self.values(),
        }
    }

    fn test(self) -> Predicate
        ensures { result ≡ test_in (above self.entry) (its_words self.entry) }
    {
        match self.word(2).bytes {
            b"null" => Predicate::Null(self.term(1)),
            _ => Predicate::Set(self.term(1)),
        }
    }

    fn compare(self) -> Predicate
        ensures { result ≡ compare_in (above self.entry) (its_words self.entry) }
    {
        Predicate::Compare(self.term(1), comparison_of(self.word(2)), self.operand(3))
    }

    fn predicate(self) -> Predicate
        ensures { result ≡ predicate_in (above self.entry) (its_words self.entry) }
    {
        if self.statement.line.count_words() == 3 {
            self.test()
        } else {
            self.compare()
        }
    }

    // What `to` assigns.
    fn assignment(self) -> Action
        ensures { result ≡ source_in (above self.entry) (term_in (above self.entry) (word_in (its_words self.entry) 1)) (word_in (its_words self.entry) 3) }
    {
        match Token::from(self.word(3)) {
            Token::Operator(..) => Action::Clear(self.term(1)),
            _ => Action::Assign(self.term(1), self.operand(3)),
        }
    }

    fn action(self) -> Action
        ensures { result ≡ action_in (above self.entry) (its_words self.entry) }
    {
        if self.statement.line.count_words() == 3 {
            return Action::Destroy(party_of(self.word(2)));
        }
        match self.word(2).bytes {
            b"to" => self.assignment(),
            b"add" => Action::Add(self.term(1), number_of(self.word(3))),
            _ => Action::Sub(self.term(1), number_of(self.word(3))),
        }
    }

    fn query(self) -> Query
        ensures { result ≡ query_in (above self.entry) (its_words self.entry) }
    {
        Query {
            subject: self.number_named(Kind::Object, 1),
            object: self.number_named(Kind::Object, 2),
            right: self.number_named(Kind::Right, 3),
        }
    }

    // What the line adds to what the lines above it declare.
    pub(crate) fn declaration(self) -> Declaration
        ensures kind { kind_of result ≡ its_kind self.entry }
        ensures adds { with_declaration result (above self.entry) ≡ declared (its_kind self.entry) (its_words self.entry) (above self.entry) }
    {
        match self.statement.kind {
            Kind::Attr => Declaration::Attribute(self.attribute()),
            Kind::Right => Declaration::Right(name_of(self.word(1))),
            Kind::Object => Declaration::Object(self.object()),
            Kind::Policy => Declaration::Policy {
                name: name_of(self.word(1)),
                right: self.number_named(Kind::Right, 2),
            },
            Kind::If => Declaration::Clause(Clause::If(self.predicate())),
            Kind::Do => Declaration::Clause(Clause::Do(self.action())),
            Kind::Query => Declaration::Query(self.query()),
        }
    }
}
