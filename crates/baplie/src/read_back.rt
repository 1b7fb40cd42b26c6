//! Which messages can be written.
ghost use Rattle.std.specs.Prelude.{ℕ, ◌≤◌, ◌^◌, List, length};
ghost use Rattle.edifact_segments.specs.Grammar.{IsInterchange};
ghost use Rattle.edifact_segments.specs.declared.segments.Segment.{Segment};
ghost use Rattle.baplie.specs.declared.parts.Message.{Message};
ghost use Rattle.baplie.specs.Messages.{IsMessage};
ghost use Rattle.baplie.specs.Whole.{IsWhole};

/// A message that is read can be written: the message that a text of at most 2^29 bytes gives, whatever
/// its service characters, line ends and spelling of the counts.
pub fn read_is_whole()
    ensures { (bytes : List ℕ) (segments : List Segment) (message : Message) → length bytes ≤ 2 ^ 29 → IsInterchange bytes segments → IsMessage segments message → IsWhole message }
{}
