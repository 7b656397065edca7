//! Whether plans are among the requests of scripts and connections.
ghost use Rattle.std.specs.Prelude.{◌≡◌, Bool, false, true};

/// The mode of an office's handler: whether plans are taken from scripts and connections.
pub trait PlanMode {
    // Whether plans are taken belongs to the type of the mode, not to its value: in contracts a
    // handler has only the value of its office (DECISIONS.md, The office).
    ghost takes: { Bool };

    /// Returns whether plans are taken.
    fn takes_plans(&self) -> bool
        ensures { result ≡ takes };
}

/// The mode without plans: an array isn't a request, and there is no path for plans.
#[derive(Clone, Copy, Debug)]
pub struct NoPlans;

impl PlanMode for NoPlans {
    ghost takes = { false };

    fn takes_plans(&self) -> bool {
        false
    }
}

/// The mode with plans: an array of requests is performed as one, and there is a path for plans.
#[derive(Clone, Copy, Debug)]
pub struct WithPlans;

impl PlanMode for WithPlans {
    ghost takes = { true };

    fn takes_plans(&self) -> bool {
        true
    }
}
