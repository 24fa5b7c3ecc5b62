//! What a value that many threads share stands for, and how a call names what it adds.
#![tactic(auto)]

ghost use Rattle.std.specs.Prelude.{◌≡◌, length};

use std::marker::Brand;

/// A value that stands for lists of entries.
pub trait Stands {
    ghost use Rattle.std.specs.Prelude.{List};

    type Entry;

    // The value stands for this list.
    ghost stands: { Self → List Self.Entry → Type 0 };

    /// How long each such list is. Takes no memory.
    fn count(&self) -> u64
        ensures { (list : List Self.Entry) → stands self.now list → result ≡ length list };
}

/// Names a list. The proof of a call that passes `Brand` picks the list.
pub trait Named<X> {
    ghost use Rattle.std.specs.Prelude.{List};

    ghost list: { List X };
}

impl<X> Named<X> for Brand {
    ghost use Rattle.std.specs.Prelude.{[]};

    ghost list = { [] };
}
