ghost use Rattle.std.specs.Prelude.{◌≡◌, ◌<◌, ◌^◌, ◌++◌, ℕ, true, Some, decimal, IfOk, IfSome, string_bytes};
ghost use Rattle.lt_filedev.specs.Names.{name_text, IsLeftOver};
ghost use Rattle.lt_filedev.specs.declared.names.Name.TheVariants.{File as Entered, Unentered as Begun};

use itoa::Buffer;
use std::alloc::Global;
use std::{fmt, io};

/// File numbers are below it.
const NUMBERS: u64 = 1 << 62;

/// What a file of the folder is called.
#[derive(Clone, Copy, Debug, PartialEq, Eq)]
pub(crate) enum Name {
    /// A file that was entered.
    File(u64),
    /// A file that is being written, or was sealed and not entered yet.
    Unentered(u64),
    Descriptor,
    /// A further name of a file that is to become the descriptor.
    NextDescriptor,
    Lock,
}

impl fmt::Display for Name {
    ghost output = { λ name. Some (name_text name) };

    fn fmt<W: fmt::Write>(&self, f: &mut fmt::Formatter<W>) -> fmt::Result {
        match self {
            Name::File(number) => write!(f, "{number}"),
            Name::Unentered(number) => write!(f, "vashmoon-{number}.new"),
            Name::Descriptor => write!(f, "DESCRIPTOR"),
            Name::NextDescriptor => write!(f, "vashmoon-descriptor.new"),
            Name::Lock => write!(f, "LOCK"),
        }
    }
}

/// The number, if a file may have it and the name is its decimal digits.
fn if_named(number: u64, name: &str) -> Option<u64>
    ensures same { IfSome result (λ named. named ≡ number) }
    ensures in_range { IfSome result (λ named. named < 2 ^ 62) }
    ensures says { IfSome result (λ named. name.now ≡ decimal named) }
    ensures only { number < 2 ^ 62 → name.now ≡ decimal number → result ≡ Some number }
{
    let mut buffer = Buffer::new();
    let is_name = number < NUMBERS && buffer.format(number) == name;
    is_name.then_some(number)
}

/// The number that the name of an entered file says.
pub(crate) fn number_of(name: &str) -> Option<u64>
    ensures in_range { IfSome result (λ number. number < 2 ^ 62) }
    ensures says { IfSome result (λ number. name.now ≡ decimal number) }
    ensures found { (number : ℕ) → number < 2 ^ 62 → name.now ≡ decimal number → result ≡ Some number }
{
    match name.parse::<u64>() {
        Ok(number) => if_named(number, name),
        Err(_) => None,
    }
}

/// The number of a file that was begun, if that is what the name says.
fn begun_number_of(name: &str) -> Option<u64>
    ensures says { IfSome result (λ number. name.now ≡ name_text (Begun number)) }
{
    let digits = name.strip_prefix("vashmoon-")?.strip_suffix(".new")?;
    number_of(digits)
}

/// Whether a stopped run may have left the name. No entered file has such a one.
pub(crate) fn is_left_over(name: &str) -> bool
    ensures only { result ≡ true → IsLeftOver name.now }
    ensures entered { result ≡ true → (number : ℕ) → number < 2 ^ 62 → ¬ (name.now ≡ name_text (Entered number)) }
{
    name == "vashmoon-descriptor.new" || begun_number_of(name).is_some()
}

/// Paths in a folder, each written over the one before.
#[derive(Debug, Drop)]
pub(crate) struct PathText {
    folder: String,
    text: String,
}

impl PathText {
    /// The folder's text ends in a slash. There is room for any name.
    pub(crate) fn new(alloc: Global, folder: &str) -> io::Result<PathText>
        ensures folder { IfOk result (λ paths. string_bytes paths.folder ≡ folder.now) }
    {
        let longest = folder.len().saturating_add(40);
        Ok(PathText {
            folder: String::from_str(alloc, folder)?,
            text: String::with_capacity(alloc, longest)?,
        })
    }

    pub(crate) fn folder(&self) -> &str
        ensures { result.now ≡ string_bytes self.now.folder }
    {
        self.folder.as_str()
    }

    /// The path of that name. It takes no memory where there is room.
    pub(crate) fn of(&mut self, name: Name) -> io::Result<&str>
        ensures path { IfOk result (λ path. path.now ≡ string_bytes self.old.folder ++ name_text name) }
    {
        self.text.clear();
        self.text.push_str(self.folder.as_str())?;
        write!(self.text, "{name}")?;
        Ok(self.text.as_str())
    }
}
