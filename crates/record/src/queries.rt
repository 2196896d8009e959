// What queries ask about.
ghost use Rattle.std.specs.Prelude.{◌≡◌};
ghost use Rattle.record.specs.Systems.{permission_asked};

use protection::Permission;
use scheme::entries::Query;

// The subject, the object and the right that a query names. A function and no `From`: both types are of other
// crates, and such an `impl` is refused.
pub fn permission_asked(query: Query) -> Permission
    ensures value { result ≡ permission_asked query }
    ensures subject { result.subject ≡ query.subject }
    ensures object { result.object ≡ query.object }
    ensures right { result.right ≡ query.right }
{
    Permission {
        subject: query.subject,
        object: query.object,
        right: query.right,
    }
}
