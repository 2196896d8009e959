// The kind that a first word names, and where a line of that kind may stand.
ghost use Rattle.std.specs.Prelude.{◌≡◌};
ghost use Rattle.lines.specs.Kinds.{kind_in, in_order, count_allowed};

use scheme::kind::Kind;

#[tactic(auto, using(crate::proofs::Spelled::six_bytes))]
pub(crate) fn kind_in(word: &[u8]) -> Option<Kind>
    ensures { result ≡ kind_in word.now }
{
    match word {
        b"attr" => Some(Kind::Attr),
        b"right" => Some(Kind::Right),
        b"object" => Some(Kind::Object),
        b"policy" => Some(Kind::Policy),
        b"if" => Some(Kind::If),
        b"do" => Some(Kind::Do),
        b"query" => Some(Kind::Query),
        _ => None,
    }
}

// Whether a line of kind `next` may stand where the last line above has kind `last`.
pub(crate) fn in_order(last: Option<Kind>, next: Kind) -> bool
    ensures { result ≡ in_order last next }
{
    match next {
        Kind::Attr | Kind::Right | Kind::Object | Kind::Query => last <= Some(next),
        Kind::Policy => last <= Some(Kind::Do),
        Kind::If => matches!(last, Some(Kind::Policy | Kind::If)),
        Kind::Do => matches!(last, Some(Kind::Policy | Kind::If | Kind::Do)),
    }
}

// Whether a line of this kind may have so many words, where so many attributes are declared.
pub(crate) fn count_allowed(kind: Kind, attributes: usize, count: usize) -> bool
    ensures { result ≡ count_allowed kind attributes count }
{
    match kind {
        Kind::Attr | Kind::Policy => count == 3,
        Kind::Right => count == 2,
        Kind::Object => count >= 2 && count - 2 == attributes,
        Kind::If | Kind::Do => count == 3 || count == 4,
        Kind::Query => count == 4,
    }
}
