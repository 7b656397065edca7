//! Tests of calls that no request reaches: of forms and values, vocabularies, graphs of links, and
//! connections. Few of their functions have contracts, so that they are proved quickly.
#![tactic(auto)]

#[cfg(test)]
mod connections;
#[cfg(test)]
mod forms;
#[cfg(test)]
mod graph;
#[cfg(test)]
mod names;
#[cfg(test)]
mod numbers;
#[cfg(test)]
mod pipes;
#[cfg(test)]
mod values;
#[cfg(test)]
mod vocab;
