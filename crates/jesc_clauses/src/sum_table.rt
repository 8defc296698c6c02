//! The sums of terms that have been read.

ghost use Rattle.std.specs.Prelude.{◌≡◌, [], ◌∷◌, ◌++◌, MatchOption, OnOk};
ghost use Rattle.jesc_clauses.specs.Readers.{HasSum, IsSumAt};

use crate::lin::Lin;
use indexmap::IndexMap;
use jesc_text::OutOfMemory;
use std::alloc::Global;
use std::marker::Model;

/// The sums of terms by number. Contracts see the table as the list of its pairs.
#[derive(Drop)]
pub(crate) struct SumTable {
    sums: IndexMap<u32, Lin>,
}

impl Model for SumTable {
    ghost use Rattle.jesc_clauses.specs.Readers.{Entries};
    ghost use Rattle.jesc_clauses.specs.contracts.lin.Lin as lin;
    ghost use Rattle.std.specs.Coded.{coded_list, coded×, coded_ℕ};

    ghost Value = { Entries };

    ghost coded = { coded_list (coded× coded_ℕ lin.the_row.coded) };

    ghost view = { λ table. table.sums.entries };
}

impl SumTable {
    /// No sums. Takes no memory.
    pub(crate) fn new(alloc: Global) -> SumTable
        ensures { result ≡ [] }
    {
        SumTable {
            sums: IndexMap::new(alloc),
        }
    }

    /// The sum of a term that has been read.
    pub(crate) fn get(&self, id: u32) -> Option<&Lin>
        ensures { MatchOption result (HasSum self.now id → ⊥) (λ lin. IsSumAt self.now id lin.now) }
    {
        match self.sums.get_index_of(&id) {
            Some(at) => match self.sums.get_index(at) {
                Some((_, lin)) => Some(lin),
                None => unreachable!(),
            },
            None => None,
        }
    }

    /// Puts in the sum of a term that hasn't been read yet.
    pub(crate) fn put(&mut self, id: u32, lin: Lin) -> Result<(), OutOfMemory>
        requires { HasSum self.old id → ⊥ }
        ensures { OnOk result (self.new ≡ self.old ++ (id, lin) ∷ []) }
    {
        match self.sums.insert(id, lin) {
            Ok(_) => Ok(()),
            Err(_) => Err(OutOfMemory),
        }
    }
}
