//! What a core decides on a request: the answer, and the changes of rows if it is accepted.
use thes_base::request::Answer;
use thes_tables::delta::Delta;

/// A core's decision on a request, before anything changes.
#[derive(Debug, Drop)]
pub enum Verdict {
    /// The answer to a request that changes nothing: a refusal, or the answer to a repeated key.
    Settled(Answer),
    /// The answer to an accepted request, and its changes of rows.
    Accepted(Answer, Delta),
}
