// Names by the numbers of their entries; no byte where there is no such entry, and no `Option`: the
// definitions are total, and what is printed names entries alone.
ghost use Rattle.std.specs.Prelude.{◌≡◌, [], map, slice_index_or};
ghost use Rattle.scheme.specs.Models.{names_of};
ghost use Rattle.scheme.specs.Drafts.{draft_of};

use scheme::draft::Draft;
use scheme::kind::Kind;
use scheme::names::Named;

fn name_at<T: Named>(entries: &[T], number: u32) -> &[u8]
    ensures { result.now ≡ slice_index_or (map T.named entries.now) number [] }
{
    match entries.get(number as usize) {
        Some(entry) => entry.name(),
        None => &[],
    }
}

// The name of an entry of this kind.
pub(crate) fn name_of(draft: &Draft, kind: Kind, number: u32) -> &[u8]
    ensures { result.now ≡ slice_index_or (names_of kind (draft_of draft.now)) number [] }
{
    match kind {
        Kind::Attr => name_at(draft.attributes(), number),
        Kind::Right => name_at(draft.rights(), number),
        Kind::Object => name_at(draft.objects(), number),
        Kind::Policy => name_at(draft.policies(), number),
        Kind::If | Kind::Do | Kind::Query => &[],
    }
}
