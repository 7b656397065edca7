//! A loaded vocabulary with the links of the tables link and hier, and the checks of their rows.
ghost use Rattle.std.specs.Prelude.{◌≡◌, ◌↔◌, ◌<◌, ◌^◌, [], List, IsTrue, IfOk, length, map};
ghost use Rattle.thes_base.specs.declared.data.Link.{Link};
ghost use Rattle.thes_base.specs.Links.{normal_form};
ghost use Rattle.thes_tables.specs.declared.rows.HierRow.{HierRow};
ghost use Rattle.thes_tables.specs.Tables.{hier_kind, hier_link};
ghost use Rattle.thes_tables.specs.Cells.{link_cells, hier_cells};
ghost use Rattle.thes_links.specs.GraphView.{is_marked, MarksOutside};
ghost use Rattle.thes_load_rules.specs.Rules.{LinkRule, HierRule};
ghost use Rattle.thes_load_rows.specs.ReadResults.{ReadResult};
ghost use Rattle.thes_load_rows.specs.LinksSoFar.{AddLinkResult, HasLinks};

use crate::ends::is_fit;
use crate::rows::{hier_in, link_in};
use std::alloc::{AllocError, Global};
use thes_base::data::{Link, LinkKind, Resource};
use thes_base::number::ResNo;
use thes_graph::graph::Graph;
use thes_links::normal_form::normalize_ends;
use thes_tables::cells::Cell;
use thes_tables::rows::{HierRow, HierType};
use thes_vocab::{Vocab, is_outside};

/// A loaded vocabulary, with the links of the rows of the tables link and hier read so far.
#[derive(Drop)]
pub struct LinkedVocab {
    pub vocab: Vocab,
    pub graph: Graph,
    ghost few: { length vocab.resources < 2 ^ 32 },
    ghost marked: { MarksOutside vocab.resources graph },
}

impl LinkedVocab {
    /// Creates a linked vocabulary without links, with the outside concepts marked in its graph.
    pub fn new(alloc: Global, vocab: Vocab) -> Result<LinkedVocab, AllocError>
        ensures same { IfOk result (λ linked_vocab. linked_vocab.vocab ≡ vocab) }
        ensures none { IfOk result (λ linked_vocab.
            HasLinks vocab.resources linked_vocab.graph [] []) }
    {
        let graph = graph_without_links(alloc, vocab.resources())?;
        Ok(LinkedVocab { vocab, graph })
    }

    /// Parses the next row of table link and adds its link; returns false if the row has another
    /// form or is a duplicate, or if its link isn't legal.
    pub fn read_link(&mut self, cells: &[Cell]) -> Result<bool, AllocError>
        ensures same { self.new.vocab ≡ self.old.vocab }
        ensures reads { let resources = self.old.vocab.resources in
            IfOk result (λ good. (rows : List Link)
            → HasLinks resources self.old.graph rows []
            → ReadResult (map link_cells) (λ more. HasLinks resources self.new.graph more [])
            (LinkRule resources) rows cells.now good) }
    {
        match link_in(cells) {
            Some(link) => {
                let good = self.add_legal(&link)?;
                Ok(good)
            }
            None => Ok(false),
        }
    }

    /// Parses the next row of table hier and adds its link; returns false if the row has another
    /// form or is a duplicate, or if its link isn't legal. `close_hier` checks the links together
    /// (Cycle, S27, S46).
    pub fn read_hier(&mut self, cells: &[Cell]) -> Result<bool, AllocError>
        ensures same { self.new.vocab ≡ self.old.vocab }
        ensures reads { let resources = self.old.vocab.resources in
            IfOk result (λ good. (links : List Link) (rows : List HierRow)
            → HasLinks resources self.old.graph links rows
            → ReadResult (map hier_cells) (HasLinks resources self.new.graph links)
            (HierRule resources links) rows cells.now good) }
    {
        match hier_in(cells) {
            Some(row) => {
                let good = self.add_legal(&link_of(&row))?;
                Ok(good)
            }
            None => Ok(false),
        }
    }

    // Adds a link if it is legal and new; otherwise returns false.
    #[tactic(auto, using(crate::proofs::LinkedVocabLemmas::fit_of))]
    fn add_legal(&mut self, link: &Link) -> Result<bool, AllocError>
        ensures same { self.new.vocab ≡ self.old.vocab }
        ensures adds { IfOk result (AddLinkResult self.old.vocab.resources self.old.graph
            self.new.graph link.now) }
    {
        if is_fit(self.vocab.resources(), link)
            && is_in_order(&self.graph, link)
            && !self.graph.has(link)
        {
            self.graph.add(link)?;
            Ok(true)
        } else {
            Ok(false)
        }
    }
}

// Creates a graph without links, with the outside concepts marked in it.
fn graph_without_links(alloc: Global, resources: &[Resource]) -> Result<Graph, AllocError>
    requires { length resources.now < 2 ^ 32 }
    ensures { IfOk result (λ graph. HasLinks resources.now graph [] []) }
{
    let mut graph = Graph::new(alloc);
    for i in 0..resources.len() {
        let n = ResNo::new(i as u32 + 1);
        if is_outside(resources, n) {
            graph.mark_outside(n)?;
        }
    }
    Ok(graph)
}

// Checks whether a row's link is in normal form, given the outside concepts that the graph marks.
fn is_in_order(graph: &Graph, link: &Link) -> bool
    ensures { IsTrue result ↔ (normal_form (is_marked graph.now) link.now ≡ link.now) }
{
    let outside = graph.is_outside(link.a) || graph.is_outside(link.b);
    normalize_ends(link, outside) == *link
}

// Returns the kind of link for the type in a row of table hier.
fn kind_of(typ: HierType) -> LinkKind
    ensures { result ≡ hier_kind typ }
{
    match typ {
        HierType::Untyped => LinkKind::Broader,
        HierType::Generic => LinkKind::BroaderGeneric,
        HierType::Partitive => LinkKind::BroaderPartitive,
        HierType::Instantial => LinkKind::BroaderInstantial,
    }
}

// Returns the link that a loaded row of table hier encodes.
fn link_of(row: &HierRow) -> Link
    ensures { result ≡ hier_link row.now }
{
    Link {
        kind: kind_of(row.typ),
        a: row.a,
        b: row.b,
    }
}
