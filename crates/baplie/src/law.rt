//! What holds of every list of segments.
ghost use Rattle.std.specs.Prelude.{◌≡◌, ◌⊎◌, ℕ, List, Some, slice_get};
ghost use Rattle.edifact_segments.specs.declared.segments.Segment.{Segment};
ghost use Rattle.baplie.specs.declared.causes.Cause.{Cause};
ghost use Rattle.baplie.specs.declared.parts.CellGroup.{CellGroup};
ghost use Rattle.baplie.specs.declared.parts.Message.{Message};
ghost use Rattle.baplie.specs.Faults.{IsLeastFault, body, groups};
ghost use Rattle.baplie.specs.Messages.{IsMessage, IsRead};
ghost use Rattle.baplie.specs.Told.{IsTold};

/// Every list of segments is a message without a fault, or has exactly one least fault.
pub fn message_or_fault()
    ensures either { (segments : List Segment) → IsRead segments ⊎ ((n : ℕ) × (cause : Cause) × IsLeastFault segments n cause) }
    ensures not_both { (segments : List Segment) (n : ℕ) (cause : Cause) → IsRead segments → IsLeastFault segments n cause → ⊥ }
    ensures one { (segments : List Segment) (n m : ℕ) (cause other : Cause) → IsLeastFault segments n cause → IsLeastFault segments m other → (n ≡ m) × (cause ≡ other) }
{}

/// In a message, each cell group tells what stands in its segments: its cell, and of its container the number,
/// type, length, weight, port of discharge and class. No default of `cell_group` is met.
pub fn nothing_left_out()
    ensures { (segments : List Segment) (message : Message) (i : ℕ) (group : List Segment) → IsMessage segments message → slice_get (groups (body segments)) i ≡ Some group
        → (cell : CellGroup) × (slice_get message.groups i ≡ Some cell) × IsTold group cell }
{}
