//! The export of a thesaurus as triples in N-Triples: SKOS, with rdf:type, owl:deprecated and
//! dct:isReplacedBy.
#![tactic(auto)]

pub mod gather;
mod holdings;
pub mod laws;
mod line;
mod line_source;
mod link_lines;
mod push;
mod resource_lines;
mod topic;
mod vocabulary;
pub mod writing;
