//! The law of views, which holds for any code that makes views.
ghost use Rattle.thes_exchange.specs.Laws.{HasOneView};

/// No effect; for the proof, states that a state has at most one answer to a query: one line, byte
/// for byte, or one refusal.
pub fn one_view()
    ensures { HasOneView }
{}
