//! Why departure files and a certificate are refused.
ghost use Rattle.std.specs.Prelude.{◌≡◌};
ghost use Rattle.voyage_files.specs.declared.refusals.JudgeNo.TheVariants.{NoMemory as WantOfMemory};

use baplie::BaplieFault;
use certificate::BoundNo;
use plan_files::PlanNo;
use stow_data::{CallNo, NoMemory};
use stow_report::NumbersNo;

/// Why departure files and a certificate are refused: the first part that doesn't hold, in this order.
#[derive(Drop)]
pub enum JudgeNo {
    /// The departure file of this call is the first that is no bay plan message.
    Text { call: CallNo, fault: BaplieFault },
    /// The departure files are no legal file set.
    Plan(PlanNo),
    /// The tree doesn't prove the bound.
    Bound(BoundNo),
    /// A number of the certificate's head isn't the one that is found, or its outcome doesn't fit.
    Numbers(NumbersNo),
    /// Memory ran out.
    NoMemory,
}

impl From<NoMemory> for JudgeNo {
    ghost from_gives = { λ _ e. e ≡ WantOfMemory };

    fn from(_: NoMemory) -> Self {
        JudgeNo::NoMemory
    }
}
