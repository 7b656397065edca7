//! Laws of reading requests and plans: bytes have one meaning as a request, and at most one as a
//! plan.
ghost use Rattle.thes_requests.specs.Laws.{OnePlanReading, OneReading, SomeReading};

/// No effect; for the proof, states that bytes have at most one meaning: one request or one form
/// fault.
#[tactic(auto, using(crate::proofs::ReadingLemmas::one_outcome))]
pub fn one_reading()
    ensures { OneReading }
{}

/// No effect; for the proof, states that all bytes have a meaning (stated as a double negation).
pub fn some_reading()
    ensures { SomeReading }
{}

/// No effect; for the proof, states that a text has at most one meaning as a plan: its requests, or
/// one fault.
#[tactic(auto, using(crate::proofs::PlanReadingLemmas::one_plan))]
pub fn one_plan_reading()
    ensures { OnePlanReading }
{}
