// A line whose words have the forms that its kind asks; and the check of a text before its lines.
ghost use Rattle.std.specs.Prelude.{◌≡◌};
ghost use Rattle.std.specs.Option.{option_map};
ghost use Rattle.words.specs.Outcomes.{carried, map_ok};
ghost use Rattle.words.specs.Positions.{line_of, word_of};
ghost use Rattle.words.specs.Cuts.{line_words};
ghost use Rattle.words.specs.Plain.{short_text};
ghost use Rattle.lines.specs.declared.fault.LineFault.TheVariants.{OfWords};
ghost use Rattle.lines.specs.Lines.{line_kind, right_count, form_check, right_forms, formed_as, formed_line};
ghost use Rattle.lines.specs.Statements.{stated};

use crate::fault::LineFault;
use crate::order::{count_allowed, in_order, kind_in};
use crate::statement::Statement;
use scheme::kind::Kind;
use words::checks::{self, check_line};
use words::position::{Line, Word};
use words::token::Token;

// A text is not too long.
pub fn check_text(text: &[u8]) -> Result<(), LineFault>
    ensures { result ≡ carried OfWords (short_text text.now) }
{
    checks::check_text(text)?;
    Ok(())
}

// The kind of a line below one of kind `last`, or none where the line has no word.
fn line_kind(line: Line, last: Option<Kind>) -> Result<Option<Kind>, LineFault>
    ensures { result ≡ line_kind last (line_words line.entry) }
{
    let Some(word) = line.words().next() else {
        return Ok(None);
    };
    match kind_in(word.bytes) {
        Some(kind) if in_order(last, kind) => Ok(Some(kind)),
        _ => Err(LineFault::Kind(word.spot)),
    }
}

impl<'a> Statement<'a> {
    fn check_count(self, attributes: usize) -> Result<(), LineFault>
        ensures { result ≡ right_count self.entry.kind attributes (line_words self.entry.line) }
    {
        if count_allowed(self.kind, attributes, self.line.count_words()) {
            Ok(())
        } else {
            Err(LineFault::Count(self.line.word(0).spot))
        }
    }

    // The word at an index has a form that its role allows; the first word was judged by its bytes.
    fn check_form(self, index: usize, word: Word) -> Result<(), LineFault>
        ensures { result ≡ form_check self.entry.kind (line_words self.entry.line) index (word_of word.entry) }
    {
        if index == 0 || self.role(index).fits(Token::from(word)) {
            Ok(())
        } else {
            Err(LineFault::Form(word.spot))
        }
    }

    // Each word has a form that its role allows.
    fn check_forms(self) -> Result<(), LineFault>
        ensures { result ≡ right_forms self.entry.kind (line_words self.entry.line) }
    {
        for (index, word) in self.line.words().enumerate() {
            self.check_form(index, word)?;
        }
        Ok(())
    }

    fn check_formed(self, attributes: usize) -> Result<(), LineFault>
        ensures { result ≡ formed_as self.entry.kind attributes (line_words self.entry.line) }
    {
        self.check_count(attributes)?;
        self.check_forms()
    }
}

// A line below one of kind `last` by its kind, none for a line with no word, or the first fault of
// its words, its kind, their count or their forms.
pub fn formed_line<'a>(
    line: Line<'a>,
    last: Option<Kind>,
    attributes: usize,
) -> Result<Option<Statement<'a>>, LineFault>
    ensures { result ≡ map_ok (option_map (stated line.entry)) (formed_line last attributes (line_of line.entry)) }
{
    // An empty line has no word and no fault: the checks below find the same, and take longer.
    if line.bytes.is_empty() {
        return Ok(None);
    }
    check_line(line)?;
    let Some(kind) = line_kind(line, last)? else {
        return Ok(None);
    };
    let statement = Statement { kind, line };
    statement.check_formed(attributes)?;
    Ok(Some(statement))
}
