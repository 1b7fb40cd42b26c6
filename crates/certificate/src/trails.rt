//! Records that nodes share.
ghost use Rattle.std.specs.Prelude.{◌≡◌, ◌<◌, ◌≤◌, ◌^◌, ◌++◌, ◌∷◌, [], length, take, slice_index_or, IfOk, OnOk, is_ok, if◌then◌else◌};

use crate::tree::Record;
use std::alloc::Global;
use std::marker::Model;
use std::sync::Arc;
use stow_data::NoMemory;

/// A record that several nodes have, and that none of them changes. Contracts see the record.
#[derive(Drop)]
pub struct SharedRecord {
    record: Arc<Record, Global>,
}

impl Model for SharedRecord {
    ghost use Rattle.certificate.specs.declared.tree.Record.{Record};
    ghost use Rattle.std.specs.Arc.{arc_value};

    ghost Value = { Record };

    ghost view = { λ s. arc_value s.record };
}

impl SharedRecord {
    /// A record, to be shared.
    pub fn new(alloc: Global, kept: Record) -> Result<SharedRecord, NoMemory>
        ensures { IfOk result (λ shared. shared ≡ kept) }
    {
        Ok(SharedRecord {
            record: Arc::new(alloc, kept)?,
        })
    }

    /// The record, for one node more. It takes no memory; `NoMemory` comes where too many have it to be counted.
    pub fn share(&self) -> Result<SharedRecord, NoMemory>
        ensures { IfOk result (λ shared. shared ≡ self.now) }
    {
        Ok(SharedRecord {
            record: Arc::try_clone(&self.record)?,
        })
    }

    /// The record.
    pub fn record(&self) -> &Record
        ensures { result.now ≡ self.now }
    {
        &self.record
    }
}

/// Records in one list that many nodes share by one count; none of them changes it. Contracts see the records.
#[derive(Drop)]
struct Front {
    records: Option<Arc<Vec<SharedRecord>, Global>>,
}

impl Model for Front {
    ghost use Rattle.certificate.specs.declared.tree.Record.{Record};
    ghost use Rattle.std.specs.Arc.{arc_value};
    ghost use Rattle.std.specs.Prelude.{List, [], option_map, unwrap_or, vec_items};

    ghost Value = { List Record };

    ghost view = { λ f. unwrap_or (option_map (λ list. vec_items (arc_value list)) f.records) [] };
}

/// Appends the records of a list, each for one node more.
fn share_behind(made: &mut Vec<SharedRecord>, records: &[SharedRecord]) -> Result<(), NoMemory>
    ensures { OnOk result (made.new.items ≡ made.old.items ++ records.now) }
{
    for record in records {
        made.push(record.share()?)?;
    }
    Ok(())
}

impl Front {
    /// No records. It takes no memory.
    fn none() -> Front
        ensures { result ≡ [] }
    {
        Front { records: None }
    }

    /// These records, to be shared as one list.
    fn of(alloc: Global, records: Vec<SharedRecord>) -> Result<Front, NoMemory>
        ensures { IfOk result (λ front. front ≡ records.items) }
    {
        Ok(Front {
            records: Some(Arc::new(alloc, records)?),
        })
    }

    /// The number of records.
    fn len(&self) -> usize
        ensures length { result ≡ length self.now }
        ensures low { result < 2 ^ 63 }
    {
        match &self.records {
            Some(records) => records.len(),
            None => 0,
        }
    }

    /// The record at a depth, from 0.
    fn get(&self, depth: usize) -> &SharedRecord
        requires { depth < length self.now }
        ensures { result.now ≡ slice_index_or self.now depth result.now }
    {
        match &self.records {
            Some(records) => &records[depth],
            None => unreachable!(),
        }
    }

    /// The same records for one node more, by one count.
    fn share(&self) -> Result<Front, NoMemory>
        ensures { IfOk result (λ front. front ≡ self.now) }
    {
        match &self.records {
            Some(records) => Ok(Front {
                records: Some(Arc::try_clone(records)?),
            }),
            None => Ok(Front::none()),
        }
    }

    /// A list of the first records, so many, each for one node more.
    fn first(&self, alloc: Global, count: usize) -> Result<Vec<SharedRecord>, NoMemory>
        requires { count ≤ length self.now }
        ensures { IfOk result (λ first. first.items ≡ take count self.now) }
    {
        let mut first = Vec::new(alloc);
        if let Some(records) = &self.records {
            share_behind(&mut first, &records[..count])?;
        }
        Ok(first)
    }
}

/// So many records stand beside the shared list at most. Fewer make a share cheaper, more make a new shared list rarer: that takes a count for each record of the old one.
const MOST_BESIDE: usize = 32;

/// The records of a node's ancestors, the root's first. Most of them stand in one list that many nodes share by one count; the last few stand beside it. Contracts see the records.
#[derive(Drop)]
pub struct Trail {
    front: Front,
    back: Vec<SharedRecord>,
}

impl Model for Trail {
    ghost use Rattle.certificate.specs.declared.tree.Record.{Record};
    ghost use Rattle.std.specs.Prelude.{List, ◌++◌};

    ghost Value = { List Record };

    ghost view = { λ t. t.front ++ t.back.items };
}

impl Trail {
    /// No records. It takes no memory.
    pub fn new(alloc: Global) -> Trail
        ensures { result ≡ [] }
    {
        Trail {
            front: Front::none(),
            back: Vec::new(alloc),
        }
    }

    /// The number of records.
    pub fn len(&self) -> usize
        ensures { result ≡ length self.now }
    {
        self.front.len() + self.back.len()
    }

    /// The record at a depth, from 0.
    pub fn get(&self, depth: usize) -> &SharedRecord
        requires { depth < length self.now }
        ensures { result.now ≡ slice_index_or self.now depth result.now }
    {
        let shared = self.front.len();
        if depth < shared {
            self.front.get(depth)
        } else {
            &self.back[depth - shared]
        }
    }

    // All records in one list, each for one node more.
    fn gathered(&self, alloc: Global) -> Result<Vec<SharedRecord>, NoMemory>
        ensures { IfOk result (λ all. all.items ≡ self.now) }
    {
        let mut all = self.front.first(alloc, self.front.len())?;
        share_behind(&mut all, self.back.as_slice())?;
        Ok(all)
    }

    // Puts all records into the shared list.
    fn join(&mut self, alloc: Global) -> Result<(), NoMemory>
        ensures { self.new ≡ self.old }
    {
        let front = Front::of(alloc, self.gathered(alloc)?)?;
        *self = Trail {
            front,
            back: Vec::new(alloc),
        };
        Ok(())
    }

    /// Appends a record. The records stay as they were where memory is wanting.
    pub fn push(&mut self, alloc: Global, added: SharedRecord) -> Result<(), NoMemory>
        ensures { self.new ≡ (if is_ok result then self.old ++ added ∷ [] else self.old) }
    {
        if self.back.len() >= MOST_BESIDE {
            self.join(alloc)?;
        }
        self.back.push(added)?;
        Ok(())
    }

    /// The same records for another node: by one count those of the shared list, and one by one those beside it. It takes the memory of the latter's list, and none for a record.
    pub fn share(&self, alloc: Global) -> Result<Trail, NoMemory>
        ensures { IfOk result (λ trail. trail ≡ self.now) }
    {
        let mut back = Vec::new(alloc);
        share_behind(&mut back, self.back.as_slice())?;
        Ok(Trail {
            front: self.front.share()?,
            back,
        })
    }

    // A trail of these records. The last few stand beside the shared list, so that they can go without a new one.
    fn parted(alloc: Global, records: Vec<SharedRecord>) -> Result<Trail, NoMemory>
        ensures { IfOk result (λ trail. trail ≡ records.items) }
    {
        let mut front = records;
        let shared = front.len().saturating_sub(MOST_BESIDE / 2);
        let back = front.split_off(shared)?;
        Ok(Trail {
            front: Front::of(alloc, front)?,
            back,
        })
    }

    /// The first records, so many; the others go.
    pub fn take_first(self, alloc: Global, count: usize) -> Result<Trail, NoMemory>
        ensures { IfOk result (λ first. first ≡ take count self) }
    {
        let Trail { front, mut back } = self;
        let shared = front.len();
        if shared <= count {
            back.truncate(count - shared);
            return Ok(Trail { front, back });
        }
        drop(back);
        let first = front.first(alloc, count);
        drop(front);
        Trail::parted(alloc, first?)
    }
}
