// A table system holds accepted numbers.
ghost use Rattle.std.specs.Prelude.{◌≡◌, true};
ghost use Rattle.systems.specs.Tables.{accepts};
ghost use Rattle.systems.specs.TableNumbers.{table_of};

use super::numbers::Numbers;

#[derive(Drop)]
pub struct TableSystem<'a> {
    pub(crate) numbers: Numbers<'a>,
    ghost accepted: { accepts (table_of numbers) ≡ true },
}
