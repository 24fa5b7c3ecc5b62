ghost use Rattle.std.specs.Prelude.{◌≡◌, ◌++◌, [], OnOk, IfOk, nat_eq};
ghost use Rattle.lt_mem.specs.Growth.{grown};

use lt_rec::{Chunk, NoMemory, RecList};
use std::alloc::Global;
use std::marker::Model;

/// A list that grows up to a limit. Contracts see the records so far, and how many more there is room for.
#[derive(Drop)]
pub struct Growing {
    list: RecList,
    last: Option<Chunk>,
    left: usize,
}

impl Model for Growing {
    ghost use Rattle.std.specs.Prelude.{◌++◌};
    ghost use Rattle.lt_mem.specs.Growth.{ListInGrowth, records_of};

    ghost Value = { ListInGrowth };

    ghost view = { λ g. record { list = g.list ++ records_of g.last; left = g.left } };
}

impl Growing {
    pub fn new(alloc: Global, limit: usize) -> Growing
        ensures empty { result.list ≡ [] }
        ensures left { result.left ≡ limit }
    {
        Growing {
            list: RecList::new(alloc),
            last: None,
            left: limit,
        }
    }

    /// How many more records there is room for.
    pub fn left(&self) -> usize
        ensures { result ≡ self.now.left }
    {
        self.left
    }

    pub fn is_full(&self) -> bool
        ensures { result ≡ nat_eq self.now.left 0 }
    {
        self.left == 0
    }

    /// Makes room for so many more chunks.
    pub fn reserve(&mut self, count: usize) -> Result<(), NoMemory>
        ensures { self.new ≡ self.old }
    {
        self.list.reserve(count)
    }

    /// Adds the first records of the chunk, as many as there is room for.
    #[inline(always)]
    pub fn add(&mut self, chunk: Chunk) -> Result<(), NoMemory>
        ensures { OnOk result (self.new ≡ grown self.old chunk) }
    {
        let count = chunk.len();
        if count <= self.left {
            self.put(chunk)?;
            self.left -= count;
            return Ok(());
        }
        self.put(chunk.cut(0, self.left)?)?;
        self.left = 0;
        Ok(())
    }

    /// Adds the chunk.
    #[inline(always)]
    fn put(&mut self, chunk: Chunk) -> Result<(), NoMemory>
        ensures list { OnOk result (self.new.list ≡ self.old.list ++ chunk) }
        ensures left { self.new.left ≡ self.old.left }
    {
        // What was written a moment ago is slow to read in larger parts: the chunk before goes to the list in its stead.
        if let Some(before) = self.last.replace(chunk) {
            self.list.push(before)?;
        }
        Ok(())
    }

    /// The list.
    pub fn into_list(self) -> Result<RecList, NoMemory>
        ensures { IfOk result (λ list. list ≡ self.list) }
    {
        let Growing {
            mut list,
            last,
            left: _left,
        } = self;
        if let Some(chunk) = last {
            list.push(chunk)?;
        }
        Ok(list)
    }
}
