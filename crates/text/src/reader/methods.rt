// One line more, and the end of the text.
ghost use Rattle.std.specs.Prelude.{◌≡◌, true, Some};
ghost use Rattle.scheme.specs.Drafts.{draft_of};
ghost use Rattle.scheme.specs.WellFormed.{well_formed};
ghost use Rattle.record.specs.Schemes.{scheme_of};
ghost use Rattle.words.specs.Outcomes.{after, map_ok};
ghost use Rattle.words.specs.Positions.{line_of};
ghost use Rattle.words.specs.Cuts.{line_words};
ghost use Rattle.text.specs.Reading.{start, read_kind, read_line, complete, finished};
ghost use Rattle.text.specs.Readers.{progress_of};

use super::Reader;
use crate::candidate::Candidate;
use crate::fault::SchemeFault;
use lines::line::formed_line;
use lines::statement::Statement;
use record::Scheme;
use scheme::draft::Draft;
use words::position::{Line, Spot};

// There is an attribute, a right and an object.
fn is_complete(draft: &Draft) -> bool
    ensures { result ≡ complete (draft_of draft.now) }
{
    !draft.attributes().is_empty() && !draft.rights().is_empty() && !draft.objects().is_empty()
}

impl Reader {
    pub(crate) fn new() -> Reader
        ensures { progress_of result ≡ start }
    {
        Reader {
            draft: Draft::new(),
            last: None,
        }
    }

    // Reads a line of a known kind, whose words have the right forms.
    fn read_statement(&mut self, statement: Statement) -> Result<(), SchemeFault>
        ensures { after result (progress_of self.new) ≡ read_kind (progress_of self.old) (line_words statement.entry.line) (Some statement.entry.kind) }
    {
        let candidate = Candidate {
            draft: &self.draft,
            statement,
        };
        candidate.check_room()?;
        candidate.check_names()?;
        let declaration = candidate.declaration();

        // There is room: it was checked first, since that row of the table comes before the names.
        self.draft.declare(declaration).unwrap();
        self.last = Some(statement.kind);
        Ok(())
    }

    pub(crate) fn read_line(&mut self, line: Line) -> Result<(), SchemeFault>
        ensures { after result (progress_of self.new) ≡ read_line (progress_of self.old) (line_of line.entry) }
    {
        match formed_line(line, self.last, self.draft.attributes().len())? {
            Some(statement) => self.read_statement(statement),
            None => Ok(()),
        }
    }

    // The scheme of a text whose last line is read; `number` is that of the line after it. What is read is
    // well-formed, so that no record can only mean too many states.
    pub(crate) fn finish(self, number: usize) -> Result<Scheme, SchemeFault>
        requires { well_formed (draft_of self.draft) ≡ true }
        ensures { map_ok scheme_of result ≡ finished number (draft_of self.draft) }
    {
        let spot = Spot {
            line: number,
            place: 1,
        };
        if !is_complete(&self.draft) {
            return Err(SchemeFault::Missing(spot));
        }
        Scheme::of(self.draft).ok_or(SchemeFault::States(spot))
    }
}
