// The row's half of an insert: whether it passes and is in time, and its record.
ghost use Rattle.std.specs.Prelude.{◌≡◌, ◌≤◌, ◌↔◌, Some, Err, IfOk, IfErr, OnOk};
ghost use Rattle.lt_schema.specs.declared.row.RowFault.{RowFault as Reason};
ghost use Rattle.lt_schema.specs.Check.{Passes, row_fault, time_of};
ghost use Rattle.lt_schema.specs.Versions.{newest};
ghost use Rattle.lt_model.specs.Readings.{bound_at};
ghost use Rattle.lt_trace.specs.Records.{IsRecordOf};
ghost use Rattle.lt_core.specs.Inserts.{numbered_row, row_record, number_for, IsTooOld, IsRowRefusal};

use crate::InsertError;
use crate::state::Core;
use lt_codec::{rec_of, rows_are_read_back};
use lt_desc::Stone;
use lt_io::Device;
use lt_rec::Rec;
use lt_schema::Value;

impl<V: Device> Core<V> {
    /// Rows from this timestamp on are unexpired at that moment.
    pub(crate) fn since(&self, now: u64) -> u64
        ensures { result ≡ bound_at self.now.ttl self.now.low now }
    {
        match self.ttl {
            None => self.low,
            Some(ttl) => self.low.max(now.saturating_sub(ttl)),
        }
    }

    /// The record of a row that passes and is in time, under the next number or, where none is left, under the last.
    pub(crate) fn record_of(&self, row: &[Value], now: u64) -> Result<Rec, InsertError>
        ensures record { IfOk result (λ rec. rec ≡ row_record self.now (number_for self.now) row.now) }
        ensures is { IfOk result (λ rec. IsRecordOf self.now.schemas rec (numbered_row self.now (number_for self.now) row.now)) }
        ensures passes { OnOk result (Passes (newest self.now.schemas) row.now) }
        ensures timely { OnOk result (bound_at self.now.ttl self.now.low now ≤ time_of self.now.schemas.first row.now) }
        ensures bad_row { (fault : Reason) → (result ≡ Err (InsertError.BadRow fault)) ↔ (row_fault (newest self.now.schemas) row.now ≡ Some fault) }
        ensures refusal { IfErr result (IsRowRefusal self.now row.now now) }
    {
        let schema = self.schemas.newest();
        schema.check(row)?;
        let seq = self.next.min(Stone::MOST - 1);
        let ver = self.schemas.newest_version();
        let rec = rec_of(self.alloc, schema, ver, seq, row)?;
        // That a row is read back from its record.
        rows_are_read_back();
        let since = self.since(now);
        if rec.ts() < since {
            return Err(InsertError::TooOld { since });
        }
        Ok(rec)
    }
}
