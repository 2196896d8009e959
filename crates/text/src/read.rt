// Reads a whole text.
ghost use Rattle.std.specs.Prelude.{◌≡◌, true, Ok, OnOk, is_err};
ghost use Rattle.scheme.specs.Models.{SchemeModel};
ghost use Rattle.record.specs.Accepted.{accepted};
ghost use Rattle.record.specs.Schemes.{scheme_of};
ghost use Rattle.words.specs.Outcomes.{after, carried, map_ok};
ghost use Rattle.words.specs.Cuts.{text_lines};
ghost use Rattle.text.specs.Faults.{scheme_report};
ghost use Rattle.text.specs.Refusing.{AsTheTableSays};
ghost use Rattle.text.specs.Reading.{read_lines, start, reading};
ghost use Rattle.text.specs.Writing.{written, Writable};
ghost use Rattle.text.specs.Wording.{Says, AcceptedExactly};

use crate::fault::SchemeFault;
use crate::reader::Reader;
use lines::line::check_text;
use record::Scheme;
use words::cut::Lines;

// The scheme that the lines of a text declare.
fn read_lines(text: &[u8]) -> Result<Scheme, SchemeFault>
    ensures { map_ok scheme_of result ≡ read_lines 1 (text_lines text.now) start }
{
    let mut reader = Reader::new();
    // the number of the line after those that are read
    let mut number = 1;
    for line in Lines::of(text) {
        reader.read_line(line)?;
        number += 1;
    }
    reader.finish(number)
}

fn read_text(scheme: &mut Scheme, text: &[u8]) -> Result<(), SchemeFault>
    ensures result { after result (scheme_of scheme.new) ≡ reading text.now }
    ensures kept { is_err result ≡ true → scheme.new ≡ scheme.old }
{
    check_text(text)?;
    *scheme = read_lines(text)?;
    Ok(())
}

// Reads a text. An accepted one replaces all that the scheme held; a refused one leaves it as it was.
// The scheme is lent, and none is answered: a rule of the project (docs/TEXT.md).
// `answered_as_the_table_says`: the scheme, or the number, line and place that are reported, is what the
// table of refusals says of the text, and the table says nothing else. `accepted`: every scheme that the
// table accepts is one of the records, which takes well-formed schemes alone. `writable`: every scheme
// that is read is within the limits of the format. `every_scheme_is_written`: each scheme within them is
// written, by a text that reads back to it. So the schemes that texts declare are just those within the
// limits. `says_what_it_declares`: the lines of an accepted text are, word by word, those that the scheme
// is written in. `accepted_exactly`: and every text that says so of a scheme within the limits is accepted
// with it, however spaced, if it is not too long and of bytes that may stand in a text.
pub fn read(scheme: &mut Scheme, text: &[u8]) -> Result<(), SchemeFault>
    ensures result { after result (scheme_of scheme.new) ≡ reading text.now }
    ensures kept { is_err result ≡ true → scheme.new ≡ scheme.old }
    ensures answered_as_the_table_says { AsTheTableSays text.now (carried scheme_report (after result (scheme_of scheme.new))) }
    ensures accepted { (m : SchemeModel) → reading text.now ≡ Ok m → accepted m ≡ true }
    ensures writable { (m : SchemeModel) → reading text.now ≡ Ok m → Writable m }
    ensures every_scheme_is_written { (m : SchemeModel) → Writable m → reading (written m) ≡ Ok m }
    ensures says_what_it_declares { OnOk result (Says text.now (scheme_of scheme.new)) }
    ensures accepted_exactly { AcceptedExactly text.now (after result (scheme_of scheme.new)) }
{
    read_text(scheme, text)
}
