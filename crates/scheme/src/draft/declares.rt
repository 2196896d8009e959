// One declaration more in a draft.
ghost use Rattle.std.specs.Prelude.{◌≡◌, if◌then◌else◌, is_ok};
ghost use Rattle.scheme.specs.Models.{room_for};
ghost use Rattle.scheme.specs.Declarations.{kind_of, with_declaration};
ghost use Rattle.scheme.specs.Drafts.{draft_of};

use super::Draft;
use crate::declaration::Declaration;
use crate::entries::Policy;
use bounded::Full;

impl Draft {
    // Refused where there is no room for one more of its kind, and then nothing changes.
    pub fn declare(&mut self, declaration: Declaration) -> Result<(), Full>
        ensures room { is_ok result ≡ room_for (kind_of declaration) (draft_of self.old) }
        ensures after { draft_of self.new ≡ (if is_ok result then with_declaration declaration (draft_of self.old) else draft_of self.old) }
    {
        match declaration {
            Declaration::Attribute(attribute) => self.attributes.push(attribute),
            Declaration::Right(name) => self.rights.push(name),
            Declaration::Object(object) => self.objects.push(object),
            Declaration::Policy { name, right } => {
                self.policies.push(Policy::without_clauses(name, right))
            }
            Declaration::Clause(clause) => self.policies.fill_last(clause),
            Declaration::Query(query) => self.queries.push(query),
        }
    }
}
