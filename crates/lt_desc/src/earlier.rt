ghost use Rattle.std.specs.Prelude.{◌≡◌, ◌++◌, ◌∷◌, [], IfOk};
ghost use Rattle.lt_desc.specs.Lawful.{comes_before, lists_file};
ghost use Rattle.lt_desc.specs.Reading.{follows};

use lt_rec::{Listed, NoMemory};
use std::alloc::Global;
use std::collections::BTreeSet;
use std::marker::Model;

/// The tablets that were read so far, and the set of their files. Contracts see the list of the tablets.
#[derive(Drop)]
pub struct Earlier {
    tablets: Vec<Listed>,
    files: BTreeSet<u64>,
}

impl Model for Earlier {
    ghost use Rattle.std.specs.Prelude.{◌≡◌, ℕ, List};
    ghost use Rattle.std.specs.Ordering.{nat_cmp};
    ghost use Rattle.std.specs.BTreeSet.{contains};
    ghost use Rattle.lt_rec.specs.declared.listed.Listed.{Listed as Tablet};
    ghost use Rattle.lt_desc.specs.Lawful.{lists_file};

    ghost Value = { List Tablet };

    ghost view = { λ e. e.tablets.items };

    ghost invariant = { λ e. (file : ℕ) → contains nat_cmp e.files file ≡ lists_file e.tablets.items file };
}

impl Earlier {
    /// No tablets, with room for so many.
    pub fn new(alloc: Global, room: usize) -> Result<Earlier, NoMemory>
        ensures { IfOk result (λ earlier. earlier ≡ []) }
    {
        Ok(Earlier {
            tablets: Vec::with_capacity(alloc, room)?,
            files: BTreeSet::new(alloc),
        })
    }

    pub fn has_file(&self, file: u64) -> bool
        ensures { result ≡ lists_file self.now file }
    {
        self.files.contains(&file)
    }

    /// Whether such a tablet comes behind the last one.
    pub fn may_add(&self, low: u64, file: u64) -> bool
        ensures { result ≡ follows self.now low file }
    {
        follows(self.tablets.as_slice(), low, file)
    }

    /// One tablet more.
    pub fn with(self, tablet: Listed) -> Result<Earlier, NoMemory>
        ensures { IfOk result (λ more. more ≡ self ++ tablet ∷ []) }
    {
        let Earlier {
            mut tablets,
            mut files,
        } = self;
        files.insert(tablet.file)?;
        tablets.push(tablet)?;
        Ok(Earlier { tablets, files })
    }

    pub fn into_vec(self) -> Vec<Listed>
        ensures { result.items ≡ self }
    {
        let Earlier { tablets, .. } = self;
        tablets
    }
}

fn follows(before: &[Listed], low: u64, file: u64) -> bool
    ensures { result ≡ follows before.now low file }
{
    match before.last() {
        None => true,
        Some(last) => comes_before(last, low, file),
    }
}

fn comes_before(tablet: &Listed, low: u64, file: u64) -> bool
    ensures { result ≡ comes_before tablet.now low file }
{
    tablet.low < low || (tablet.low == low && tablet.file < file)
}
