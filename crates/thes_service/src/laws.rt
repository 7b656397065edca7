//! Laws of an office's answers over HTTP and to scripts, whichever code serves them.
ghost use Rattle.thes_service.specs.Laws.{HasOneListOfResponses, HasOneOfficeAnswer, HasOneScript};

use thes_store::keeper::Keeper;

/// No effect; for the proof, states that the bytes, the limits and the state before determine the
/// response and the state after it, over any two storages, unless memory runs out or a storage
/// fails.
pub fn one_office_answer<K: Keeper, L: Keeper>()
    ensures { HasOneOfficeAnswer K.view L.view }
{}

/// No effect; for the proof, states that the bytes of requests, in their order, and the state
/// before determine the responses and the state after them, unless memory runs out or a storage
/// fails.
pub fn one_list_of_responses<K: Keeper, L: Keeper>()
    ensures { HasOneListOfResponses K.view L.view }
{}

/// No effect; for the proof, states that the bytes of a script and the state before determine its
/// output and the state after it, unless a line is answered with a fault.
pub fn one_script<K: Keeper, L: Keeper>()
    ensures { HasOneScript K.view L.view }
{}
