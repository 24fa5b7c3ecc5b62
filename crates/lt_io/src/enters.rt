ghost use Rattle.std.specs.Prelude.{◌≡◌, ◌<◌, ℕ, List, true, IsErrOf};
ghost use Rattle.lt_io.specs.Device.{Counts, KeepsLent, EntersFile};

use crate::{Device, DeviceError};

/// A value that stands for a sealed file, and that can be entered without its reader.
pub trait Enters<V: Device> {
    ghost entered_number: { Self → ℕ };

    ghost entered_bytes: { Self → List ℕ };

    /// As [`Device::enter`], for the file that the value stands for.
    fn enter(&self, dev: &mut V, dir: &mut V::Dir) -> Result<(), DeviceError>
        requires { entered_number self.now < (V.directory dir.old).now.ceiling }
        ensures entered { V.honest ≡ true → EntersFile (V.directory dir.old) (V.directory dir.new) (entered_number self.now) (entered_bytes self.now) result }
        ensures unchanged { IsErrOf result DeviceError.NoMemory → V.directory dir.new ≡ V.directory dir.old }
        ensures lent { KeepsLent (V.directory dir.old) (V.directory dir.new) }
        ensures spare { V.spare dir.new ≡ V.spare dir.old }
        ensures cause { Counts (V.faults dev.old) (V.faults dev.new) (IsErrOf result DeviceError.Failed) };
}
