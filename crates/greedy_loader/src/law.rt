//! The rule determines the departures.
ghost use Rattle.greedy_loader.specs.Law.{HasOneVoyage};

/// Whatever departures the rule makes of a plan, they are the same.
pub fn one_voyage()
    ensures { HasOneVoyage }
{}
