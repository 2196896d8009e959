// Bytes at the end of a vector.
ghost use Rattle.render.specs.Appended.{Appended};

use std::alloc::AllocError;

pub(crate) fn put(out: &mut Vec<u8>, bytes: &[u8]) -> Result<(), AllocError>
    ensures { Appended result out.old out.new bytes.now }
{
    out.extend_from_slice(bytes)
}
