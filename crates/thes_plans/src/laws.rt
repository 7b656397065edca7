//! Laws of the definitions of plans, independent of any implementation: each contract is a theorem.
ghost use Rattle.thes_plans.specs.Laws.{EntriesKeepLegal, OneListOfOutcomes, SomeListOfOutcomes};
ghost use Rattle.thes_plans.specs.Laws.{OnePlanOutcome, PlanKeepsLegal, SinglePlanIsRequest, SomePlanOutcome};

/// States that a plan of one request without references is that request: its outcome is the
/// request's answer or refusal, and the state after it is the one after the request.
pub fn single_plan_is_request()
    ensures { SinglePlanIsRequest }
{}

/// States that a plan whose texts have their forms leaves a legal state legal and consistent,
/// whatever its outcome.
pub fn plan_keeps_legal()
    ensures { PlanKeepsLegal }
{}

/// States that a plan whose texts have their forms, performed from a legal state, has at most one
/// outcome and at most one state after it.
pub fn one_plan_outcome()
    ensures { OnePlanOutcome }
{}

/// States that every plan is accepted or refused in every state (stated as a double negation).
pub fn some_plan_outcome()
    ensures { SomePlanOutcome }
{}

/// States that a list of requests and plans whose texts have their forms leaves a legal state legal
/// and consistent, whatever their outcomes.
pub fn entries_keep_legal()
    ensures { EntriesKeepLegal }
{}

/// States that a list of requests and plans whose texts have their forms, performed from a legal
/// state, has at most one list of outcomes and at most one state after it.
pub fn one_list_of_outcomes()
    ensures { OneListOfOutcomes }
{}

/// States that every list of requests and plans has outcomes in every state (stated as a double
/// negation).
pub fn some_list_of_outcomes()
    ensures { SomeListOfOutcomes }
{}
