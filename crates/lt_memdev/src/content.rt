ghost use Rattle.std.specs.Prelude.{◌≡◌, ℕ, List};

use std::alloc::AllocError;
use std::marker::Model;

/// Bytes that stay for good, so that to share them takes no memory and never fails. They are never freed.
#[derive(Debug, Drop)]
pub(crate) struct Content {
    bytes: &'static [u8],
}

impl Model for Content {
    ghost Value = { List ℕ };

    ghost view = { λ c. c.bytes.now };
}

impl Content {
    pub(crate) fn keep(bytes: Vec<u8>) -> Content
        ensures { result ≡ bytes.items }
    {
        let mut bytes = bytes;
        bytes.shrink_to_fit();
        Content {
            bytes: bytes.leak(),
        }
    }

    pub(crate) fn share(&self) -> Content
        ensures { result ≡ self.now }
    {
        Content { bytes: self.bytes }
    }

    pub(crate) fn as_slice(&self) -> &'static [u8]
        ensures { result.now ≡ self.now }
    {
        self.bytes
    }
}

impl Clone for Content {
    ghost is_clone = { λ x y. x ≡ y };

    fn clone(&self) -> Result<Content, AllocError> {
        Ok(self.share())
    }
}

pub(crate) fn share(descriptor: &Option<Content>) -> Option<Content>
    ensures { result ≡ descriptor.now }
{
    descriptor.as_ref().map(|content| content.share())
}
