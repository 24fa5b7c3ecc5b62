ghost use Rattle.std.specs.Prelude.{◌≡◌, ◌+◌, ◌-◌, ◌^◌, ◌≤◌, ◌<◌, [], ◌++◌, Bool, IfOk, OnOk, OnErr, length, min, nat_eq, take, drop, slice_get};
ghost use Rattle.std.specs.Option.{option_copied};
ghost use Rattle.std.specs.Arc.{arc_value};
ghost use Rattle.lt_rec.specs.Records.{piece};

use crate::{NoMemory, Rec};
use std::alloc::{AllocError, Global};
use std::marker::Model;
use std::sync::Arc;

/// Neighbouring records of a shared vector, from `from` up to `to`, read upward or, with `down`, downward. Contracts see
/// the list of these records in the order of reading.
#[derive(Debug, Drop)]
pub struct Chunk {
    recs: Arc<Vec<Rec>>,
    from: usize,
    to: usize,
    down: bool,
}

impl Model for Chunk {
    ghost use Rattle.std.specs.Prelude.{◌≤◌, List, length};
    ghost use Rattle.std.specs.Arc.{arc_value};
    ghost use Rattle.lt_rec.specs.Record.{Record};
    ghost use Rattle.lt_rec.specs.Records.{piece, IsPiece};

    ghost Value = { List Record };

    ghost view = { λ c. piece (arc_value c.recs).items c.from c.to c.down };

    ghost invariant = { λ c. IsPiece (arc_value c.recs).items c.from c.to };
}

impl Chunk {
    /// The records from `from` up to `to` of a shared vector. Takes no memory.
    pub fn new(recs: Arc<Vec<Rec>>, from: usize, to: usize, down: bool) -> Chunk
        requires ordered { from ≤ to }
        requires within { to ≤ length (arc_value recs).items }
        ensures { result ≡ piece (arc_value recs).items from to down }
    {
        Chunk {
            recs,
            from,
            to,
            down,
        }
    }

    pub fn len(&self) -> usize
        ensures { result ≡ length self.now }
    {
        self.to - self.from
    }

    pub fn is_empty(&self) -> bool
        ensures { result ≡ nat_eq (length self.now) 0 }
    {
        self.from == self.to
    }

    /// The first record in the order of reading; `None` exactly where there is none. Takes no memory.
    pub fn first(&self) -> Option<&Rec>
        ensures { option_copied result ≡ slice_get self.now 0 }
    {
        if self.from == self.to {
            return None;
        }
        let at = if self.down { self.to - 1 } else { self.from };
        self.recs.as_slice().get(at)
    }

    /// Leaves the first record out, if there is one. Takes no memory.
    pub fn skip_first(&mut self)
        ensures { self.new ≡ drop 1 self.old }
    {
        if self.from == self.to {
            return;
        }
        if self.down {
            self.to -= 1;
        } else {
            self.from += 1;
        }
    }

    /// The last record in the order of reading; `None` exactly where there is none. Takes no memory.
    pub fn last(&self) -> Option<&Rec>
        ensures { option_copied result ≡ slice_get self.now (length self.now - 1) }
    {
        if self.from == self.to {
            return None;
        }
        let at = if self.down { self.from } else { self.to - 1 };
        self.recs.as_slice().get(at)
    }

    /// Leaves the last record out, if there is one. Takes no memory.
    pub fn skip_last(&mut self)
        ensures { self.new ≡ take (length self.old - 1) self.old }
    {
        if self.from == self.to {
            return;
        }
        if self.down {
            self.from += 1;
        } else {
            self.to -= 1;
        }
    }

    /// The records from the `from`th up to the `to`th in the order of reading. Copies a pointer and no record.
    pub fn cut(&self, from: usize, to: usize) -> Result<Chunk, NoMemory>
        requires ordered { from ≤ to }
        requires within { to ≤ length self.now }
        ensures { IfOk result (λ chunk. chunk ≡ take (to - from) (drop from self.now)) }
    {
        let recs = Arc::try_clone(&self.recs)?;
        let (from, to) = if self.down {
            (self.to - to, self.to - from)
        } else {
            (self.from + from, self.from + to)
        };
        Ok(Chunk {
            recs,
            from,
            to,
            down: self.down,
        })
    }
}

impl Clone for Chunk {
    ghost is_clone = { λ x y. x ≡ y };

    fn clone(&self) -> Result<Chunk, AllocError> {
        let recs = Arc::try_clone(&self.recs)?;
        Ok(Chunk {
            recs,
            from: self.from,
            to: self.to,
            down: self.down,
        })
    }
}

/// Records in order, in pieces of shared vectors. Contracts see the list of records. A clone or a cut copies pointers and
/// no record.
#[derive(Debug, Drop)]
pub struct RecList {
    chunks: Vec<Chunk>,
    at: usize,
}

impl Model for RecList {
    ghost use Rattle.std.specs.Prelude.{◌≤◌, List, length, drop};
    ghost use Rattle.lt_rec.specs.Record.{Record};
    ghost use Rattle.lt_rec.specs.Records.{joined, NoneIsEmpty, IsLeft};

    ghost Value = { List Record };

    ghost view = { λ l. joined (drop l.at l.chunks.items) };

    ghost invariant = { λ l. IsLeft l.chunks.items l.at };
}

impl RecList {
    /// No records. Takes no memory.
    pub fn new(alloc: Global) -> RecList
        ensures { result ≡ [] }
    {
        RecList {
            chunks: Vec::new(alloc),
            at: 0,
        }
    }

    /// The records of a vector.
    pub fn from_vec(alloc: Global, recs: Vec<Rec>) -> Result<RecList, NoMemory>
        ensures { IfOk result (λ list. list ≡ recs.items) }
    {
        let to = recs.as_slice().len();
        let mut list = RecList::new(alloc);
        list.push(Chunk::new(Arc::new(alloc, recs)?, 0, to, false))?;
        Ok(list)
    }

    /// Makes room for so many more chunks.
    pub fn reserve(&mut self, count: usize) -> Result<(), NoMemory>
        ensures { self.new ≡ self.old }
    {
        self.chunks.reserve(count)?;
        Ok(())
    }

    /// Adds the chunk's records at the end.
    pub fn push(&mut self, chunk: Chunk) -> Result<(), NoMemory>
        ensures ok { OnOk result (self.new ≡ self.old ++ chunk) }
        ensures unchanged { OnErr result (self.new ≡ self.old) }
    {
        if chunk.is_empty() {
            return Ok(());
        }
        self.chunks.push(chunk)?;
        Ok(())
    }

    pub fn is_empty(&self) -> bool
        ensures { result ≡ nat_eq (length self.now) 0 }
    {
        self.at == self.chunks.as_slice().len()
    }

    /// How many records there are; it stands still at its type's end.
    pub fn len(&self) -> usize
        ensures { result ≡ min (length self.now) (2 ^ 64 - 1) }
    {
        let (_, left) = self.chunks.as_slice().split_at(self.at);
        let mut count: usize = 0;
        for chunk in left {
            count = count.saturating_add(chunk.len());
        }
        count
    }

    /// The first records, `count` of them or all. Copies pointers and no record.
    pub fn front(&self, count: usize) -> Result<RecList, NoMemory>
        ensures { IfOk result (λ list. list ≡ take count self.now) }
    {
        let (_, left) = self.chunks.as_slice().split_at(self.at);
        let mut list = RecList::new(*self.chunks.allocator());
        let mut wanted = count;
        for chunk in left {
            if wanted == 0 {
                return Ok(list);
            }
            let given = wanted.min(chunk.len());
            list.push(chunk.cut(0, given)?)?;
            wanted -= given;
        }
        Ok(list)
    }

    /// The first record; `None` exactly where there is none. Takes no memory.
    pub fn first(&self) -> Option<&Rec>
        ensures { option_copied result ≡ slice_get self.now 0 }
    {
        if self.at == self.chunks.len() {
            return None;
        }
        self.chunks[self.at].first()
    }

    /// Leaves the first record out, if there is one. Takes no memory.
    pub fn skip_first(&mut self)
        ensures { self.new ≡ drop 1 self.old }
    {
        if self.at == self.chunks.len() {
            return;
        }
        let first = &mut self.chunks[self.at];
        first.skip_first();
        if first.is_empty() {
            self.at += 1;
        }
    }

    /// The last record; `None` exactly where there is none. Takes no memory.
    pub fn last(&self) -> Option<&Rec>
        ensures { option_copied result ≡ slice_get self.now (length self.now - 1) }
    {
        if self.at == self.chunks.len() {
            return None;
        }
        self.chunks[self.chunks.len() - 1].last()
    }

    /// Leaves the last record out, if there is one. Takes no memory.
    pub fn skip_last(&mut self)
        ensures { self.new ≡ take (length self.old - 1) self.old }
    {
        if self.at == self.chunks.len() {
            return;
        }
        let end = self.chunks.len() - 1;
        let last = &mut self.chunks[end];
        last.skip_last();
        if last.is_empty() {
            self.chunks.truncate(end);
        }
    }
}

impl Clone for RecList {
    ghost is_clone = { λ x y. x ≡ y };

    fn clone(&self) -> Result<RecList, AllocError> {
        let chunks = self.chunks.clone()?;
        Ok(RecList {
            chunks,
            at: self.at,
        })
    }
}
