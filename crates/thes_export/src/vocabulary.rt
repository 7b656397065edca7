//! The IRIs of properties and classes, in the vocabularies RDF, SKOS, OWL and DCMI Metadata Terms.
ghost use Rattle.std.specs.Prelude.{◌≡◌};
ghost use Rattle.thes_export.specs.Spelling.{class_iri, object_text, property_iri};
ghost use Rattle.thes_base.specs.Triples.{True};

use thes_base::triple::{Class, Property};

/// Returns the full IRI of a property.
#[tactic(auto, unfolding(crate::specs::Spelling::rdf, crate::specs::Spelling::skos, crate::specs::Spelling::owl, crate::specs::Spelling::dct))]
pub fn property_text(property: Property) -> &'static str
    ensures { result.now ≡ property_iri property }
{
    match property {
        Property::HasType => "http://www.w3.org/1999/02/22-rdf-syntax-ns#type",
        Property::InScheme => "http://www.w3.org/2004/02/skos/core#inScheme",
        Property::TopConceptOf => "http://www.w3.org/2004/02/skos/core#topConceptOf",
        Property::HasTopConcept => "http://www.w3.org/2004/02/skos/core#hasTopConcept",
        Property::Deprecated => "http://www.w3.org/2002/07/owl#deprecated",
        Property::IsReplacedBy => "http://purl.org/dc/terms/isReplacedBy",
        Property::PrefLabel => "http://www.w3.org/2004/02/skos/core#prefLabel",
        Property::AltLabel => "http://www.w3.org/2004/02/skos/core#altLabel",
        Property::HiddenLabel => "http://www.w3.org/2004/02/skos/core#hiddenLabel",
        Property::ScopeNote => "http://www.w3.org/2004/02/skos/core#scopeNote",
        Property::Broader => "http://www.w3.org/2004/02/skos/core#broader",
        Property::Narrower => "http://www.w3.org/2004/02/skos/core#narrower",
        Property::Related => "http://www.w3.org/2004/02/skos/core#related",
        Property::ExactMatch => "http://www.w3.org/2004/02/skos/core#exactMatch",
        Property::CloseMatch => "http://www.w3.org/2004/02/skos/core#closeMatch",
        Property::RelatedMatch => "http://www.w3.org/2004/02/skos/core#relatedMatch",
        Property::BroadMatch => "http://www.w3.org/2004/02/skos/core#broadMatch",
        Property::NarrowMatch => "http://www.w3.org/2004/02/skos/core#narrowMatch",
        Property::Member => "http://www.w3.org/2004/02/skos/core#member",
    }
}

/// Returns the full IRI of a class of SKOS.
#[tactic(auto, unfolding(crate::specs::Spelling::skos))]
pub fn class_text(class: Class) -> &'static str
    ensures { result.now ≡ class_iri class }
{
    match class {
        Class::Concept => "http://www.w3.org/2004/02/skos/core#Concept",
        Class::ConceptScheme => "http://www.w3.org/2004/02/skos/core#ConceptScheme",
        Class::Collection => "http://www.w3.org/2004/02/skos/core#Collection",
    }
}

/// Returns the spelling of the literal `true` with the type `xsd:boolean`.
#[tactic(auto, unfolding(crate::specs::Spelling::xsd))]
pub fn true_text() -> &'static str
    ensures { result.now ≡ object_text True }
{
    "\"true\"^^<http://www.w3.org/2001/XMLSchema#boolean>"
}
