//! Terms read as sums of numbered opaque terms.

ghost use Rattle.std.specs.Prelude.{◌≡◌, ◌≤◌, ◌^◌, unsigned_abs, true, false, [], ◌∷◌, ◌++◌, IfOk, OnOk, All, map, length};
ghost use Rattle.jesc_logic.specs.Terms.{term_at, IsIn, applied, number, binary};
ghost use Rattle.jesc_clauses.specs.Merges.{OnWide};
ghost use Rattle.jesc_clauses.specs.Readings.{is_opaque, arguments, HaveSymbol};
ghost use Rattle.jesc_clauses.specs.Sums.{IsReadAs, IsWideIn, names_of};
ghost use Rattle.jesc_clauses.specs.Readers.{HaveSums, AreSumsOf, HasSum, HasRead, IsKnownAll, IsPut, IsReader, AreLins, IsSumOf, IsWideSumOf, IsProductOf, IsMultipleOf, IsWideMultipleOf};

use crate::clause::Opaque;
use crate::error::ClauseError;
use crate::lin::{Lin, added, copied, multiplied, narrow, single};
use crate::sum_table::SumTable;
use jesc_logic::{Node, TermId, Terms};
use jesc_text::{List, OutOfMemory};
use std::alloc::Global;

/// Terms that have been read, and the opaque terms among them by numbers of their own.
#[derive(Drop)]
pub(crate) struct Reader {
    pub sums: SumTable,
    pub opaques: List<Opaque>,
}

impl Reader {
    /// Nothing has been read.
    pub(crate) fn new(alloc: Global, terms: &Terms) -> Reader
        ensures { IsReader terms.now result.sums result.opaques }
    {
        // the call brings the table's invariant into the proof
        let _count = terms.len();
        Reader {
            sums: SumTable::new(alloc),
            opaques: List::new(alloc),
        }
    }

    /// Puts in the sum of a term that isn't opaque.
    fn put(&mut self, terms: &Terms, id: TermId, lin: Lin) -> Result<(), ClauseError>
        requires reader { IsReader terms.now self.old.sums self.old.opaques }
        requires there { IsIn terms.now id }
        requires plain { is_opaque (term_at terms.now id) ≡ false }
        requires args { All (IsKnownAll (names_of terms.now self.old.opaques)) (arguments (term_at terms.now id)) }
        requires read { IsReadAs (names_of terms.now self.old.opaques) (term_at terms.now id) lin }
        ensures read { OnOk result (HasRead terms.now self.old.sums self.new.sums self.old.opaques self.new.opaques id.0) }
        ensures wide { OnWide (λ n. ⊥) result }
    {
        if let Some(_) = self.sums.get(id.0) {
            return Ok(());
        }
        match self.sums.put(id.0, lin) {
            Ok(_) => Ok(()),
            Err(_) => Err(ClauseError::OutOfMemory),
        }
    }

    /// Reads a number.
    fn number(
        &mut self,
        alloc: Global,
        terms: &Terms,
        id: TermId,
        n: i128,
    ) -> Result<(), ClauseError>
        requires reader { IsReader terms.now self.old.sums self.old.opaques }
        requires there { IsIn terms.now id }
        requires term { term_at terms.now id ≡ number n }
        ensures read { OnOk result (HasRead terms.now self.old.sums self.new.sums self.old.opaques self.new.opaques id.0) }
        ensures wide { OnWide (IsWideIn (term_at terms.now id)) result }
    {
        let constant = narrow(n)?;
        let form = List::new(alloc);
        self.put(terms, id, Lin { form, constant })
    }

    /// Reads the sum of two terms that have been read.
    fn sum(
        &mut self,
        alloc: Global,
        terms: &Terms,
        id: TermId,
        a: TermId,
        b: TermId,
    ) -> Result<(), ClauseError>
        requires reader { IsReader terms.now self.old.sums self.old.opaques }
        requires there { IsIn terms.now id }
        requires a { HasSum self.old.sums a.0 }
        requires b { HasSum self.old.sums b.0 }
        requires term { term_at terms.now id ≡ binary 0 (term_at terms.now a) (term_at terms.now b) }
        ensures read { OnOk result (HasRead terms.now self.old.sums self.new.sums self.old.opaques self.new.opaques id.0) }
        ensures wide { OnWide (IsWideIn (term_at terms.now id)) result }
    {
        let lin = self.sum_of(alloc, a, b)?;
        self.put(terms, id, lin)
    }

    /// The sum of the sums of two terms.
    fn sum_of(&self, alloc: Global, a: TermId, b: TermId) -> Result<Lin, ClauseError>
        requires lins { AreLins self.now.sums }
        requires a { HasSum self.now.sums a.0 }
        requires b { HasSum self.now.sums b.0 }
        ensures made { IfOk result (IsSumOf self.now.sums a.0 b.0) }
        ensures wide { OnWide (IsWideSumOf self.now.sums a.0 b.0) result }
    {
        match (self.sums.get(a.0), self.sums.get(b.0)) {
            (Some(a), Some(b)) => added(alloc, a, b),
            _ => unreachable!(),
        }
    }

    /// Reads the product of a number and a term that have been read.
    fn product(
        &mut self,
        alloc: Global,
        terms: &Terms,
        id: TermId,
        factor: TermId,
        k: i128,
        a: TermId,
    ) -> Result<(), ClauseError>
        requires reader { IsReader terms.now self.old.sums self.old.opaques }
        requires there { IsIn terms.now id }
        requires factor { HasSum self.old.sums factor.0 }
        requires k { term_at terms.now factor ≡ number k }
        requires a { HasSum self.old.sums a.0 }
        requires term { IsProductOf (term_at terms.now factor) (term_at terms.now a) (term_at terms.now id) }
        ensures read { OnOk result (HasRead terms.now self.old.sums self.new.sums self.old.opaques self.new.opaques id.0) }
        ensures wide { OnWide (IsWideIn (term_at terms.now id)) result }
    {
        let lin = self.product_of(alloc, k, a)?;
        self.put(terms, id, lin)
    }

    /// A number times the sum of a term.
    fn product_of(&self, alloc: Global, k: i128, a: TermId) -> Result<Lin, ClauseError>
        requires lins { AreLins self.now.sums }
        requires k { unsigned_abs k ≤ 2 ^ 94 }
        requires a { HasSum self.now.sums a.0 }
        ensures made { IfOk result (IsMultipleOf self.now.sums k a.0) }
        ensures wide { OnWide (IsWideMultipleOf self.now.sums k a.0) result }
    {
        match self.sums.get(a.0) {
            Some(a) => multiplied(alloc, k, a),
            None => unreachable!(),
        }
    }

    /// Reads a term and all that stand in it.
    pub(crate) fn read(
        &mut self,
        alloc: Global,
        terms: &Terms,
        id: TermId,
    ) -> Result<(), ClauseError>
        requires reader { IsReader terms.now self.old.sums self.old.opaques }
        requires there { IsIn terms.now id }
        ensures read { OnOk result (HasRead terms.now self.old.sums self.new.sums self.old.opaques self.new.opaques id.0) }
        ensures wide { OnWide (IsWideIn (term_at terms.now id)) result }
    {
        if let Some(_) = self.sums.get(id.0) {
            return Ok(());
        }
        match terms.node(id) {
            Node::Num(n) => self.number(alloc, terms, id, n),
            Node::App {
                symbol,
                arity,
                a,
                b,
                c,
            } => {
                let places = [a, b, c];
                let args = &places[..arity as usize];
                for arg in args {
                    self.read(alloc, terms, *arg)?;
                }
                self.apply(alloc, terms, id, symbol, args)
            }
        }
    }

    /// Reads an application to terms that have been read.
    fn apply(
        &mut self,
        alloc: Global,
        terms: &Terms,
        id: TermId,
        symbol: u32,
        args: &[TermId],
    ) -> Result<(), ClauseError>
        requires reader { IsReader terms.now self.old.sums self.old.opaques }
        requires there { IsIn terms.now id }
        requires few { length args.now ≤ 3 }
        requires in_table { All (IsIn terms.now) args.now }
        requires args { HaveSums self.old.sums args.now }
        requires term { term_at terms.now id ≡ applied symbol (map (term_at terms.now) args.now) }
        ensures read { OnOk result (HasRead terms.now self.old.sums self.new.sums self.old.opaques self.new.opaques id.0) }
        ensures wide { OnWide (IsWideIn (term_at terms.now id)) result }
    {
        if args.len() != 2 || symbol > 1 {
            return self.opaque(alloc, terms, id, symbol, args);
        }
        let a = args[0];
        let b = args[1];
        if symbol == 0 {
            return self.sum(alloc, terms, id, a, b);
        }
        if let Node::Num(k) = terms.node(a) {
            return self.product(alloc, terms, id, a, k, b);
        }
        if let Node::Num(k) = terms.node(b) {
            return self.product(alloc, terms, id, b, k, a);
        }
        self.opaque(alloc, terms, id, symbol, args)
    }

    /// Puts in an opaque term, whose arguments have been read, under a number of its own.
    fn opaque(
        &mut self,
        alloc: Global,
        terms: &Terms,
        id: TermId,
        symbol: u32,
        args: &[TermId],
    ) -> Result<(), ClauseError>
        requires reader { IsReader terms.now self.old.sums self.old.opaques }
        requires there { IsIn terms.now id }
        requires args { HaveSums self.old.sums args.now }
        requires opaque { is_opaque (term_at terms.now id) ≡ true }
        requires symbol { HaveSymbol (term_at terms.now id) symbol }
        requires arguments { arguments (term_at terms.now id) ≡ map (term_at terms.now) args.now }
        ensures read { OnOk result (HasRead terms.now self.old.sums self.new.sums self.old.opaques self.new.opaques id.0) }
        ensures wide { OnWide (λ n. ⊥) result }
    {
        if let Some(_) = self.sums.get(id.0) {
            return Ok(());
        }
        match self.put_opaque(alloc, id, symbol, args) {
            Ok(_) => Ok(()),
            Err(_) => Err(ClauseError::OutOfMemory),
        }
    }

    /// Puts in an opaque term that hasn't been read.
    fn put_opaque(
        &mut self,
        alloc: Global,
        id: TermId,
        symbol: u32,
        args: &[TermId],
    ) -> Result<(), OutOfMemory>
        requires fresh { HasSum self.old.sums id.0 → ⊥ }
        requires args { HaveSums self.old.sums args.now }
        ensures { OnOk result (IsPut self.old.sums self.new.sums self.old.opaques self.new.opaques id symbol args.now) }
    {
        let number = self.opaques.len();
        if number >= 0xffff_ffff {
            return Err(OutOfMemory);
        }
        let args = self.copies(alloc, args)?;
        let lin = single(alloc, number as u32)?;
        self.sums.put(id.0, lin)?;
        self.opaques.push(Opaque { id, symbol, args })
    }

    /// The sums of terms that have been read.
    fn copies(&self, alloc: Global, ids: &[TermId]) -> Result<List<Lin>, OutOfMemory>
        requires ids { HaveSums self.now.sums ids.now }
        ensures { IfOk result (AreSumsOf self.now.sums ids.now) }
    {
        let mut sums = List::new(alloc);
        for id in ids {
            match self.sums.get(id.0) {
                Some(lin) => sums.push(copied(alloc, lin)?)?,
                None => unreachable!(),
            }
        }
        Ok(sums)
    }
}
