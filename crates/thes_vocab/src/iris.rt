// The IRIs of outside concepts, indexed in both directions.
ghost use Rattle.std.specs.Prelude.{◌≡◌, ◌≢◌, ℕ, OnOk, OnErr, None, Some, MatchOption, option_copied};
ghost use Rattle.std.specs.FinMap as dict;

use std::alloc::{AllocError, Global};
use std::collections::BTreeMap;
use std::marker::Model;
use thes_base::number::ResNo;
use thes_base::text::Iri;

// A one-to-one map between the numbers of outside concepts and their IRIs, with a look-up in each
// direction.
#[derive(Drop)]
pub(crate) struct IriTable {
    alloc: Global,
    iris: BTreeMap<ResNo, Iri>,
    numbers: BTreeMap<Iri, ResNo>,
}

impl Model for IriTable {
    ghost use Rattle.std.specs.Coded.{codes};
    ghost use Rattle.std.specs.FinMap as dict;
    ghost use Rattle.thes_base.specs.Resources.{Iris};

    ghost Value = { Iris };

    ghost coded = { Prim.hlevel (codes, dict.code) };

    ghost use Rattle.thes_vocab.specs.IriIndex.{iris_in, AreInverse};

    ghost view = { λ a. iris_in a.iris.entries };

    ghost invariant = { λ a. AreInverse (iris_in a.iris.entries) a.numbers };
}

impl IriTable {
    // Creates an empty map without allocating.
    pub(crate) fn new(alloc: Global) -> IriTable
        ensures { result ≡ dict.empty }
    {
        IriTable {
            alloc,
            iris: BTreeMap::new(alloc),
            numbers: BTreeMap::new(alloc),
        }
    }

    // Returns the IRI of an outside concept by its number; None if the map has none.
    #[tactic(auto, using(crate::proofs::IriLemmas::get_iri_at))]
    pub(crate) fn iri(&self, n: ResNo) -> Option<&Iri>
        ensures { option_copied result ≡ dict.get self.now n }
    {
        self.iris.get(&n)
    }

    // Returns the number of the outside concept that has the IRI.
    #[tactic(auto, using(crate::proofs::IriLemmas::number_found))]
    pub(crate) fn number(&self, iri: &Iri) -> Option<ResNo>
        ensures { MatchOption result ((n : ℕ) → dict.get self.now n ≢ Some iri.now)
            (λ n. dict.get self.now n ≡ Some iri.now) }
    {
        self.numbers.get(iri).copied()
    }

    // Inserts a new IRI under a new number, in both directions; if memory runs out, in neither.
    pub(crate) fn insert(&mut self, n: ResNo, iri: Iri) -> Result<(), AllocError>
        requires number { dict.get self.old n ≡ None }
        requires iri { (m : ℕ) → dict.get self.old m ≢ Some iri }
        ensures ok { OnOk result (self.new ≡ dict.insert self.old n iri) }
        ensures err { OnErr result (self.new ≡ self.old) }
    {
        let copy = iri.try_clone(self.alloc)?;
        self.numbers.insert(copy, n)?;
        match self.iris.insert(n, iri) {
            Ok(_) => Ok(()),
            Err(refused) => {
                let (_, iri) = refused.value;
                self.numbers.remove(&iri);
                Err(AllocError)
            }
        }
    }

    // Removes the number of an outside concept and its IRI, in both directions.
    pub(crate) fn remove(&mut self, n: ResNo, iri: &Iri)
        requires { dict.get self.old n ≡ Some iri.now }
        ensures { self.new ≡ dict.remove self.old n }
    {
        self.iris.remove(&n);
        self.numbers.remove(iri);
    }
}
