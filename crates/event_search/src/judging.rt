//! What a search asks of a program's rules.
ghost use Rattle.std.specs.Prelude.{◌≡◌, ℕ, ◌≤◌, length, OnOk};
ghost use Rattle.zero_one_rows.specs.Variables.{Voyage};
ghost use Rattle.certificate.specs.Entries.{entry_of};
ghost use Rattle.search_core.specs.Told.{InTable, NameEarlier};
ghost use Rattle.event_search.specs.Cores.{node_at};
ghost use Rattle.event_search.specs.JudgingEvents.{HasTrail, JudgesClose, JudgesBranch, JudgesOffer};

use certificate::Record;
use search_core::{Done, NodeKey, Refused};
use stow_data::NoMemory;

/// Judges records by the rules of a voyage's program. The node of a record is told by its key and the ended nodes.
///
/// Judging takes no memory. It asks for room for the ended nodes, which `reserve` makes.
pub trait Judge {
    /// The voyage of the program.
    ghost voyage: { Self → Voyage };

    /// For how many ended nodes there is room.
    ghost room: { Self → ℕ };

    /// Makes room for so many ended nodes.
    fn reserve(&mut self, entries: usize) -> Result<(), NoMemory>
        ensures voyage { voyage self.new ≡ voyage self.old }
        ensures room { OnOk result (entries ≤ room self.new) }
        ensures kept { room self.old ≤ room self.new };

    /// Whether a record is a leaf that closes at a value.
    fn close(
        &mut self,
        ended: &[Done<Record>],
        node: NodeKey,
        seen: u64,
        entry: &Record,
    ) -> Result<(), Refused>
        requires room { length ended.now ≤ room self.old }
        requires earlier { NameEarlier ended.now }
        requires named { InTable (length ended.now) node }
        requires trail { HasTrail (voyage self.old) (node_at (voyage self.old) ended.now node) }
        ensures voyage { voyage self.new ≡ voyage self.old }
        ensures room { room self.new ≡ room self.old }
        ensures judged { JudgesClose (voyage self.old) (node_at (voyage self.old) ended.now node) (entry_of (voyage self.old) entry.now) seen result };

    /// Whether a record divides its box by a free variable.
    fn branch(
        &mut self,
        ended: &[Done<Record>],
        node: NodeKey,
        entry: &Record,
    ) -> Result<(), Refused>
        requires room { length ended.now ≤ room self.old }
        requires earlier { NameEarlier ended.now }
        requires named { InTable (length ended.now) node }
        requires trail { HasTrail (voyage self.old) (node_at (voyage self.old) ended.now node) }
        ensures voyage { voyage self.new ≡ voyage self.old }
        ensures room { room self.new ≡ room self.old }
        ensures judged { JudgesBranch (voyage self.old) (node_at (voyage self.old) ended.now node) (entry_of (voyage self.old) entry.now) result };

    /// The price of a leaf's box, where it is full and violates no base row.
    fn offer(
        &mut self,
        ended: &[Done<Record>],
        node: NodeKey,
        entry: &Record,
    ) -> Result<u64, Refused>
        requires room { length ended.now ≤ room self.old }
        requires earlier { NameEarlier ended.now }
        requires named { InTable (length ended.now) node }
        requires trail { HasTrail (voyage self.old) (node_at (voyage self.old) ended.now node) }
        ensures voyage { voyage self.new ≡ voyage self.old }
        ensures room { room self.new ≡ room self.old }
        ensures judged { JudgesOffer (voyage self.old) (node_at (voyage self.old) ended.now node) (entry_of (voyage self.old) entry.now) result };
}
