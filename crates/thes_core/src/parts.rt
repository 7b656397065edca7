//! Creates a core from parts that were loaded.
ghost use Rattle.thes_base.specs.State.{State};
ghost use Rattle.thes_base.specs.Legal.{IsLegalState};
ghost use Rattle.thes_links.specs.GraphView.{MarksOutside};
ghost use Rattle.thes_core.specs.CoreView.{IsUsableWith, IsViewOf};
ghost use Rattle.thes_core.specs.Parts.{ArePartsOf};

use crate::machine::Core;
use crate::thesaurus::Thesaurus;
use std::alloc::Global;
use thes_base::data::Limits;
use thes_graph::graph::Graph;
use thes_post::book::Book;
use thes_vocab::Vocab;

impl Core {
    /// Creates a core from the vocabulary, the links and the counts of postings of a legal state,
    /// with these limits.
    #[tactic(auto, using(crate::proofs::PartLemmas::legal_without))]
    pub fn of_parts(alloc: Global, vocab: Vocab, graph: Graph, book: Book, limits: Limits) -> Core
        requires marks { MarksOutside vocab.resources graph }
        requires legal { (s : State) × ArePartsOf s vocab graph.links book
            × IsLegalState vocab.base s }
        ensures holds { (s : State) → ArePartsOf s vocab graph.links book
            → IsLegalState vocab.base s → IsViewOf result s }
        ensures usable { IsUsableWith vocab.base limits result }
    {
        // No effect; states the form of the base for the proof.
        let _ = vocab.base().as_str();
        Core {
            thesaurus: Thesaurus {
                alloc,
                vocab,
                graph,
                book,
                limits,
            },
            spent: false,
        }
    }
}
