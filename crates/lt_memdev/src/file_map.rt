ghost use Rattle.std.specs.Prelude.{◌≡◌, ◌↔◌, ◌<◌, ◌^◌, ℕ, [], IsTrue, IsSome, Some, None, IfOk, OnOk, OnErr};
ghost use Rattle.std.specs.List.Sorted.{IsStrictlyIncreasing};
ghost use Rattle.std.specs.Map.{keys_of};
ghost use Rattle.lt_io.specs.Directory.{Contents, file_at};
ghost use Rattle.lt_memdev.specs.Files.{above, Puts};

use crate::content::Content;
use lt_rec::{Files, NoMemory, Octets};
use std::alloc::Global;
use std::collections::BTreeMap;
use std::marker::Model;

/// Files by their numbers, rising.
#[derive(Debug, Drop)]
pub(crate) struct FileMap {
    files: BTreeMap<u64, Content>,
}

impl Model for FileMap {
    ghost Value = { Contents };

    ghost view = { λ m. m.files.entries };
}

impl FileMap {
    pub(crate) fn new(alloc: Global) -> FileMap
        ensures { result ≡ [] }
    {
        FileMap {
            files: BTreeMap::new(alloc),
        }
    }

    /// Where a number stands twice, the first file counts.
    pub(crate) fn of(alloc: Global, files: &[(u64, Octets)]) -> Result<FileMap, NoMemory>
        ensures { IfOk result (λ map. (number : ℕ) → file_at map number ≡ file_at files.now number) }
    {
        let mut map = FileMap::new(alloc);
        let mut at = files.len();
        while at > 0 {
            at -= 1;
            let (number, bytes) = &files[at];
            let bytes = Vec::from_slice(alloc, bytes.as_slice())?;
            map.put(*number, Content::keep(bytes))?;
        }
        Ok(map)
    }

    pub(crate) fn get(&self, number: u64) -> Option<Content>
        ensures { result ≡ file_at self.now number }
    {
        self.files.get(&number).map(|content| content.share())
    }

    pub(crate) fn put(&mut self, number: u64, content: Content) -> Result<(), NoMemory>
        ensures ok { OnOk result (Puts self.old self.new number (Some content)) }
        ensures unchanged { OnErr result (self.new ≡ self.old) }
    {
        self.files.insert(number, content)?;
        Ok(())
    }

    pub(crate) fn take(&mut self, number: u64)
        ensures { Puts self.old self.new number None }
    {
        self.files.remove(&number);
    }

    pub(crate) fn copy(&self) -> Result<FileMap, NoMemory>
        ensures { IfOk result (λ copy. copy ≡ self.now) }
    {
        let files = self.files.clone()?;
        Ok(FileMap { files })
    }

    /// One above the greatest number, or 0 where there is none.
    pub(crate) fn above(&self) -> u64
        requires { (number : ℕ) → IsSome (file_at self.now number) → number < 2 ^ 62 }
        ensures { result ≡ above self.now }
    {
        match self.files.last_key_value() {
            Some((number, _)) => *number + 1,
            None => 0,
        }
    }

    pub(crate) fn numbers(&self, alloc: Global) -> Result<Files, NoMemory>
        ensures numbers { IfOk result (λ numbers. numbers ≡ keys_of self.now) }
        ensures rising { IfOk result IsStrictlyIncreasing }
    {
        let mut numbers = Vec::new(alloc);
        for number in self.files.keys() {
            numbers.push(*number)?;
        }
        Ok(Files::from_vec(numbers))
    }
}
