//! Which bay plans can be listed.
ghost use Rattle.std.specs.Prelude.{ℕ, ◌≤◌, ◌^◌, List, length};
ghost use Rattle.edifact_segments.specs.Grammar.{IsInterchange};
ghost use Rattle.edifact_segments.specs.declared.segments.Segment.{Segment};
ghost use Rattle.baplie.specs.declared.parts.Message.{Message};
ghost use Rattle.baplie.specs.Messages.{IsMessage};
ghost use Rattle.stow_report.specs.Listings.{AreListable};

/// The groups of a message that is read from a text of at most 2^29 bytes can be listed.
pub fn read_is_listable()
    ensures { (bytes : List ℕ) (segments : List Segment) (message : Message) → length bytes ≤ 2 ^ 29 → IsInterchange bytes segments → IsMessage segments message → AreListable message.groups }
{}
