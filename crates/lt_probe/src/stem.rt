ghost use Rattle.std.specs.Prelude.{◌≡◌};
ghost use Rattle.lt_probe.specs.Stems.{is_whole};

/// How much of a stem a prefix is.
#[derive(Clone, Copy, Debug, PartialEq, Eq)]
pub enum Stem {
    /// All of it: each key that begins with the prefix has it as its stem.
    Whole,
    /// Its front, or all of it: it is not known whether longer stems begin with the prefix.
    Part,
}

impl Stem {
    pub fn is_whole(self) -> bool
        ensures { result ≡ is_whole self }
    {
        match self {
            Stem::Whole => true,
            Stem::Part => false,
        }
    }
}
