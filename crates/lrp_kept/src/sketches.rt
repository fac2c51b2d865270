// Rows as they are held: with what they leave to each atom that reads their relation.
ghost use Rattle.std.specs.Prelude.{◌≡◌, ◌<◌, Contains, Some, IfOk, IfSome, length, slice_get};
ghost use Rattle.lrp_kept.specs.Sketches.{AreSketchesOf, CanBeOutlined, CanBeSketched, IsSketchAmong, IsSketchFor};
ghost use Rattle.lrp_kept.specs.declared.disjuncts.JoinedAtom.{JoinedAtom as JoinedAtomOf};

use crate::disjuncts::Disjunct;
use crate::outlines::Outline;
use crate::rows::{HeldRow, Sketch};
use crate::spans::ColumnSpan;
use lrp_model::{Copies, Domain, Memory, Row};
use lrp_point::Point;
use std::alloc::Global;

impl HeldRow {
    /// A row as it is held in a relation, with a sketch for each atom of the disjuncts that reads the relation.
    pub fn of(
        alloc: Global,
        disjuncts: &[Disjunct],
        relation: usize,
        row: &Row,
        domain: &Domain,
    ) -> Result<HeldRow, Memory>
        requires { CanBeSketched disjuncts.now relation row.now }
        ensures relation { IfOk result (λ made. made.relation ≡ relation) }
        ensures row { IfOk result (λ made. made.row ≡ row.now) }
        ensures sketches { IfOk result (λ made. AreSketchesOf domain.now disjuncts.now relation
            row.now made.sketches.items) }
    {
        let sketching = Sketching {
            alloc,
            disjuncts,
            relation,
            row,
            domain,
        };
        let sketches = sketching.all()?;
        let row = row.copy(alloc)?;
        Ok(HeldRow {
            relation,
            row,
            sketches,
        })
    }
}

// What the sketches of a row have in common.
#[derive(Clone, Copy)]
struct Sketching<'a> {
    alloc: Global,
    disjuncts: &'a [Disjunct],
    relation: usize,
    row: &'a Row,
    domain: &'a Domain,
}

impl<'a> Sketching<'a> {
    // A sketch for each atom that reads the relation.
    fn all(&self) -> Result<Vec<Sketch>, Memory>
        requires { CanBeSketched self.now.disjuncts.now self.now.relation self.now.row.now }
        ensures { IfOk result (λ made. AreSketchesOf self.now.domain.now self.now.disjuncts.now
            self.now.relation self.now.row.now made.items) }
    {
        let mut all = Vec::new(self.alloc);
        for disjunct in self.disjuncts {
            all = self.with_disjunct(disjunct, all)?;
        }
        Ok(all)
    }

    // With those for the atoms of a disjunct.
    fn with_disjunct(&self, disjunct: &Disjunct, before: Vec<Sketch>) -> Result<Vec<Sketch>, Memory>
        requires listed { Contains self.now.disjuncts.now disjunct.now }
        requires row { CanBeSketched self.now.disjuncts.now self.now.relation self.now.row.now }
        requires before { AreSketchesOf self.now.domain.now self.now.disjuncts.now self.now.relation
            self.now.row.now before.items }
        ensures { IfOk result (λ made. AreSketchesOf self.now.domain.now self.now.disjuncts.now
            self.now.relation self.now.row.now made.items) }
    {
        let mut all = before;
        for atom in 0..disjunct.atoms.len() {
            all = self.with_atom(disjunct, atom, all)?;
        }
        Ok(all)
    }

    // With that for one atom, if it reads the relation.
    fn with_atom(
        &self,
        disjunct: &Disjunct,
        atom: usize,
        before: Vec<Sketch>,
    ) -> Result<Vec<Sketch>, Memory>
        requires listed { Contains self.now.disjuncts.now disjunct.now }
        requires atom { atom < length disjunct.now.atoms.items }
        requires row { CanBeSketched self.now.disjuncts.now self.now.relation self.now.row.now }
        requires before { AreSketchesOf self.now.domain.now self.now.disjuncts.now self.now.relation
            self.now.row.now before.items }
        ensures { IfOk result (λ made. AreSketchesOf self.now.domain.now self.now.disjuncts.now
            self.now.relation self.now.row.now made.items) }
    {
        let Some(sketch) = self.at_atom(disjunct, atom)? else {
            return Ok(before);
        };
        // The types inside a sketch are named, since the prover asks for them where one is pushed.
        let _outline: Option<Outline> = None;
        let _span: Option<ColumnSpan> = None;
        let _point: Option<Point> = None;
        let mut all = before;
        all.push(sketch)?;
        Ok(all)
    }

    // A sketch for an atom, if that reads the relation.
    fn at_atom(&self, disjunct: &Disjunct, atom: usize) -> Result<Option<Sketch>, Memory>
        requires listed { Contains self.now.disjuncts.now disjunct.now }
        requires atom { atom < length disjunct.now.atoms.items }
        requires row { CanBeSketched self.now.disjuncts.now self.now.relation self.now.row.now }
        ensures { IfOk result (λ made. IfSome made
            (IsSketchAmong self.now.domain.now self.now.disjuncts.now self.now.relation
            self.now.row.now)) }
    {
        if disjunct.atoms[atom].relation != self.relation {
            return Ok(None);
        }
        let sketch = self.sketch(disjunct, atom)?;
        Ok(Some(sketch))
    }

    fn sketch(&self, disjunct: &Disjunct, atom: usize) -> Result<Sketch, Memory>
        requires atom { atom < length disjunct.now.atoms.items }
        requires row { (a : JoinedAtomOf) → slice_get disjunct.now.atoms.items atom ≡ Some a
            → CanBeOutlined self.now.row.now a }
        ensures { IfOk result (IsSketchFor self.now.domain.now disjunct.now atom self.now.row.now) }
    {
        let of = &disjunct.atoms[atom];
        let outline = Outline::of_row(self.alloc, self.row, &of.terms, &of.vars, self.domain)?;
        Ok(Sketch {
            disjunct: disjunct.number,
            atom,
            outline,
        })
    }
}
