//! Why departure files are refused.
ghost use Rattle.std.specs.Prelude.{◌≡◌};
ghost use Rattle.plan_files.specs.declared.plan_faults.PlanNo.TheVariants.{NoMemory as WantOfMemory};

use crate::file_faults::FileNo;
use stow_data::{CallNo, NoMemory};
use stowage_rules::RuleBroken;

/// Why departure files are refused. A file that shows no plan comes before a departure that breaks a rule.
#[derive(Drop)]
pub enum PlanNo {
    /// The file of this call is the first that shows no plan.
    File { call: CallNo, no: FileNo },
    /// The departure of this call is the first that breaks a rule.
    Rule { call: CallNo, rule: RuleBroken },
    /// Memory ran out.
    NoMemory,
}

impl From<NoMemory> for PlanNo {
    ghost from_gives = { λ _ e. e ≡ WantOfMemory };

    fn from(_: NoMemory) -> Self {
        PlanNo::NoMemory
    }
}
