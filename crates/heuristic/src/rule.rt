//! How many runs of which sort: the settings of the rule by which voyages are sailed.

/// How many runs in 100 sail the whole ship.
pub const WHOLE_RUNS: u32 = 2;

/// How many of these in 100 take over stays of the kept voyage.
pub const GUIDED_RUNS: u32 = 60;

/// How many stacks are freed at the least.
pub const FEWEST_FREED: u32 = 2;

/// How many numbers of freed stacks there are.
pub const FREED_SPREAD: u32 = 2;

/// How many runs in 100 free a stack in which a container is rehandled at a cost.
pub const REHANDLED_RUNS: u32 = 95;

/// How many runs in 100 free stacks from the first call on.
pub const FREE_RUNS: u32 = 80;

/// How many runs in 100 lift containers by chance.
pub const DUG_RUNS: u32 = 15;

/// The same where prices differ.
pub const PRICED_DUG_RUNS: u32 = 40;

/// Where prices differ, how many runs in 100 lift containers early where that is cheaper.
pub const EARLY_RUNS: u32 = 75;
