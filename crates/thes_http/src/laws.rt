//! Laws of the answers to connections, whichever code serves them.
ghost use Rattle.thes_http.specs.Laws.{HasOneCall, HasOneAnswer, CutHasNoAnswer};

use crate::service::Service;

/// No effect; for the proof, states that the same bytes make the same call of a service, or make no
/// call and get the same response, unless memory runs out. It doesn't matter how many reads the
/// bytes take.
pub fn one_call<S: Service>()
    ensures { HasOneCall S.behaviour }
{}

/// No effect; for the proof, states that the bytes and the state before determine the response and
/// the state after it, faults aside, if each call of the service has one answer and one state after
/// it.
pub fn one_answer<S: Service>()
    ensures { HasOneAnswer S.behaviour }
{}

/// No effect; for the proof, states that a request which was cut off has no answer, unless memory
/// ran out.
pub fn no_answer_to_a_cut<S: Service>()
    ensures { CutHasNoAnswer S.behaviour }
{}
