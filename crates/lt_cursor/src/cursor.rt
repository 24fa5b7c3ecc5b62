ghost use Rattle.std.specs.Prelude.{◌≡◌, ◌+◌, true, [], ◌∷◌, None, Some, Err, filter, map, OnOk, OnErr, IfOk, IfErr, IfSome, IfNone, IsErrOf, All, IsPermutation};
ghost use Rattle.std.specs.Arc.{arc_value};
ghost use Rattle.lt_io.specs.Device.{Counts};
ghost use Rattle.lt_rec.specs.Boxes.{in_box};
ghost use Rattle.lt_cursor.specs.Order.{IsInOrder, HaveDistinctKeys};
ghost use Rattle.lt_cursor.specs.Boxed.{gathered, range_lens};
ghost use Rattle.lt_tablet.specs.declared.errors.ReadError.{ReadError as Reason};
ghost use Rattle.lt_cursor.specs.Refusals.{Refuses, IsNeverBad};

use crate::CursorError;
use crate::merge::Merge;
use crate::opening::{all_places, sources_of};
use lt_io::Device;
use lt_rec::{NoMemory, RawBox, Rec, RecList, Steps};
use lt_tablet::{ReadError, Tablet};
use std::alloc::Global;
use std::marker::Model;
use std::sync::Arc;
use std::sync::ledger::Ledger;

/// The records of a box over several tablets and lists in memory, in the order of their keys or, with `down`, the other way
/// round. A block is read when its first record is needed. Contracts see the records still to come, the number of blocks
/// left and the first refusal, if there was one.
#[derive(Drop)]
pub struct Cursor<V: Device> {
    merge: Merge<V>,
    refusal: Option<ReadError>,
}

impl<V: Device> Model for Cursor<V> {
    ghost use Rattle.lt_cursor.specs.Merging.{Progress, progress_of};
    ghost use Rattle.lt_cursor.specs.Refusals.{IsKept};

    ghost Value = { Progress };

    ghost view = { λ c. progress_of c.merge c.refusal };

    ghost invariant = { λ c. IsKept V.honest c.merge c.refusal };
}

impl<V: Device> Cursor<V> {
    /// A cursor at the first record. Nothing is read.
    pub fn new(
        alloc: Global,
        tablets: Vec<Arc<Tablet<V>>>,
        mems: Vec<RecList>,
        raw_box: RawBox,
        down: bool,
    ) -> Result<Cursor<V>, NoMemory>
        requires distinct { HaveDistinctKeys (gathered V.honest (map arc_value tablets.items) mems.items) }
        requires ordered { All (IsInOrder down) mems.items }
        ensures sorted { V.honest ≡ true → IfOk result (λ cursor. IsInOrder down cursor.coming) }
        // Where the device tells its files' bytes, exactly the box's records of all sources are to come, each once.
        ensures exact { V.honest ≡ true → IfOk result (λ cursor. IsPermutation cursor.coming (filter (in_box raw_box) (gathered true (map arc_value tablets.items) mems.items))) }
        ensures blocks { IfOk result (λ cursor. cursor.blocks ≡ range_lens raw_box (map arc_value tablets.items)) }
        ensures begun { IfOk result (λ cursor. cursor.refusal ≡ None) }
    {
        let sources = sources_of(alloc, tablets, mems, &raw_box, down)?;
        let waiting = all_places(alloc, sources.as_slice().len())?;
        Ok(Cursor {
            merge: Merge::new(alloc, raw_box, down, sources, waiting),
            refusal: None,
        })
    }

    /// The next record of the box; `None` exactly at the end. After a refusal nothing more is given, and all stays as it is.
    pub fn next<L: Ledger>(
        &mut self,
        dev: &mut V,
        steps: &mut Steps<L>,
    ) -> Result<Option<Rec>, CursorError>
        ensures given { V.honest ≡ true → IfOk result (λ given. IfSome given (λ rec. self.old.coming ≡ rec ∷ self.new.coming)) }
        ensures end { V.honest ≡ true → IfOk result (λ given. IfNone given (self.old.coming ≡ [])) }
        ensures ended { V.honest ≡ true → IfOk result (λ given. IfNone given (self.new.coming ≡ [])) }
        ensures goes_on { OnOk result (self.new.refusal ≡ None) }
        ensures refusal { IfErr result (λ refused. Refuses self.old.refusal self.new.refusal refused) }
        ensures stopped { (why : Reason) → self.old.refusal ≡ Some why → result ≡ Err (CursorError.Ended why) }
        ensures unchanged { (why : Reason) → self.old.refusal ≡ Some why → self.new ≡ self.old }
        // Each block that is left no more was read, and counted, once.
        ensures ticks { steps.new + self.new.blocks ≡ steps.old + self.old.blocks }
        ensures never_bad { V.honest ≡ true → IfErr result (λ refused. IsNeverBad refused) }
        ensures cause { Counts (V.faults dev.old) (V.faults dev.new) (IsErrOf result (CursorError.Read ReadError.Fault)) }
    {
        if let Some(why) = self.refusal {
            return Err(CursorError::Ended(why));
        }
        match self.merge.next(dev, steps) {
            Ok(given) => Ok(given),
            Err(why) => {
                self.refusal = Some(why);
                Err(CursorError::Read(why))
            }
        }
    }
}
