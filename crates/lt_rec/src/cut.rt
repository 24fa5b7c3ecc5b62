ghost use Rattle.std.specs.Prelude.{◌≡◌};
ghost use Rattle.lt_rec.specs.Boxes.{is_below};

use crate::Octets;
use std::cmp::Ordering;

/// A place in the keys' order: right before all keys that begin with the bytes, or, with `after`, right after them.
#[derive(Debug, Drop, PartialEq, Eq)]
pub struct Cut {
    pub bytes: Octets,
    pub after: bool,
}

impl Cut {
    /// Whether a key lies below the cut. Takes no memory.
    pub fn below(&self, key: &[u8]) -> bool
        ensures exact { result ≡ is_below self.now key.now }
    {
        let bytes = self.bytes.as_slice();
        let (front, _) = key.split_at(key.len().min(bytes.len()));
        match front.cmp(bytes) {
            Ordering::Less => true,
            Ordering::Equal => self.after,
            Ordering::Greater => false,
        }
    }
}
