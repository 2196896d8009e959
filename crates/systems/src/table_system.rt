// The table as a protection system, and the call that fills it.
ghost use Rattle.std.specs.Prelude.{◌≡◌, OnOk, OnErr};
ghost use Rattle.protection.specs.Refusals.{numbered};
ghost use Rattle.protection.specs.Systems.{system_of};
ghost use Rattle.systems.specs.Refusals.{table_refusal_values};
ghost use Rattle.systems.specs.Tables.{bare, next_of, table_walk, table_labels, fill_answer, filled};
ghost use Rattle.systems.specs.TableNumbers.{table_of};
ghost use Rattle.systems.specs.TableMeaning.{MeansItsNumbers, IsBare};
ghost use Rattle.systems.specs.TableRefusing.{AnsweredByTheTable};
ghost use Rattle.systems.specs.TableLaws.{table_bounds, table_counts};

use super::numbers::Numbers;
use super::refusals::TableRefusal;
use super::table::TableSystem;
use protection::{Permission, System};
use walk::Walk;

impl<'a> TableSystem<'a> {
    // A bare one: one state, and no move, object or right.
    pub fn new() -> Self
        ensures numbers { table_of result.numbers ≡ bare }
        ensures is_bare { IsBare (system_of (⟦<TableSystem<'a> as Walk>⟧.model result)
            (⟦<TableSystem<'a> as System>⟧.labels result)) }
        ensures means_its_numbers { MeansItsNumbers result.numbers
            (system_of (⟦<TableSystem<'a> as Walk>⟧.model result)
            (⟦<TableSystem<'a> as System>⟧.labels result)) }
    {
        TableSystem {
            numbers: Numbers {
                states: 1,
                moves: 0,
                objects: 0,
                rights: 0,
                start: 0,
                labels: &[],
                entries: &[],
            },
        }
    }

    // Takes the numbers in place of those it held, or refuses them, as the table of refusals says, and stays as
    // it was. It means the numbers that it then holds.
    pub fn fill(&mut self, numbers: Numbers<'a>) -> Result<(), TableRefusal>
        ensures answer { numbered table_refusal_values result ≡ fill_answer (table_of numbers.entry) }
        ensures after { table_of self.new.numbers ≡ filled (table_of self.old.numbers) (table_of numbers.entry) }
        ensures answered_by_the_table { AnsweredByTheTable numbers.entry (numbered table_refusal_values result) }
        ensures accepted_is_held { OnOk result (self.new.numbers ≡ numbers.entry) }
        ensures refused_stays { OnErr result (self.new ≡ self.old) }
        ensures means_its_numbers { MeansItsNumbers self.new.numbers
            (system_of (⟦<TableSystem<'a> as Walk>⟧.model self.new)
            (⟦<TableSystem<'a> as System>⟧.labels self.new)) }
    {
        numbers.check()?;
        self.numbers = numbers;
        Ok(())
    }
}

impl<'a> Walk for TableSystem<'a> {
    ghost model = { λ t. table_walk (table_of t.numbers) };

    ghost bounds = { λ t. table_bounds (table_of t.numbers) t.accepted };

    fn states(&self) -> u32 {
        self.numbers.states
    }

    fn start(&self) -> u32 {
        self.numbers.start
    }

    fn moves(&self) -> u32 {
        self.numbers.moves
    }

    fn step(&self, state: u32, mv: u32) -> Option<u32> {
        if state >= self.numbers.states || mv >= self.numbers.moves {
            return None;
        }
        let place = state as usize * self.numbers.moves as usize + mv as usize;
        next_state(*self.numbers.entries.get(place)?)
    }
}

// The next state that an entry stands for.
fn next_state(entry: u32) -> Option<u32>
    ensures { result ≡ next_of entry }
{
    entry.checked_sub(1)
}

impl<'a> System for TableSystem<'a> {
    ghost labels = { λ t. table_labels (table_of t.numbers) };

    ghost counts = { λ t. table_counts (table_of t.numbers) t.accepted };

    fn objects(&self) -> u32 {
        self.numbers.objects
    }

    fn rights(&self) -> u32 {
        self.numbers.rights
    }

    fn label(&self, mv: u32) -> Option<Permission> {
        if mv >= self.numbers.moves {
            return None;
        }
        Some(self.numbers.label_at(mv))
    }
}
