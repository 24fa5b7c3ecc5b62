ghost use Rattle.std.specs.Prelude.{◌≡◌, ◌↔◌, ◌⊎◌, ◌+◌, ◌^◌, ◌∷◌, [], ℕ, Contains, Some, None, Err, OnOk, IfOk, IsErrOf};
ghost use Rattle.lt_io.specs.Device.{Counts};
ghost use Rattle.lt_schema.specs.declared.change.AlterError.{AlterError as Reason};
ghost use Rattle.lt_schema.specs.Versions.{newest, newest_version, alter_refusal};
ghost use Rattle.lt_trace.specs.Elements.{Story, free, grown};
ghost use Rattle.lt_state.specs.Stands.{StandsFor};
ghost use Rattle.lt_events.specs.Cores.{with_lent, with_change, changed_stone};
ghost use Rattle.lt_core.specs.Adds.{alter_adds};

use crate::CoreAlterError;
use crate::state::Core;
use lt_desc::Stone;
use lt_io::Device;
use lt_schema::Change;
use std::sync::Arc;

impl<V: Device> Core<V> {
    /// Makes a change of the schema durable, and answers the version that it makes. After `Fault` a stop may leave the change
    /// or not; the table goes on without it.
    pub fn alter(&mut self, dev: &mut V, change: &Change) -> Result<u32, CoreAlterError>
        // What the answer adds to each story that the table stands for.
        ensures stands { (s : Story) → StandsFor V.honest self.old s → StandsFor V.honest self.new (grown s (alter_adds self.old change.now result)) }
        ensures version { IfOk result (λ version. version ≡ newest_version self.old.schemas + 1) }
        ensures schemas { OnOk result (self.new.schemas ≡ with_change self.old.schemas change.now) }
        ensures published { OnOk result (self.new.anchor.may ≡ Some (changed_stone self.old change.now) ∷ []) }
        ensures refused { (why : Reason) → (result ≡ Err (CoreAlterError.Refused why)) ↔ (alter_refusal (newest self.old.schemas) change.now ≡ Some why) }
        ensures unchanged { (why : Reason) → result ≡ Err (CoreAlterError.Refused why) → self.new ≡ self.old }
        ensures spent { (result ≡ Err CoreAlterError.Spent) ↔ ((alter_refusal (newest self.old.schemas) change.now ≡ None) × (self.old.next_file ≡ 2 ^ 62)) }
        // That no number is left is in the story then.
        ensures noted { result ≡ Err CoreAlterError.Spent → (s : Story) → StandsFor V.honest self.old s → Contains (grown s (alter_adds self.old change.now result)).since (free (2 ^ 62)) }
        ensures fault { result ≡ Err CoreAlterError.Fault → self.new ≡ with_lent self.old self.new.anchor }
        ensures no_memory { result ≡ Err CoreAlterError.NoMemory → (self.new ≡ self.old) ⊎ (self.new ≡ with_lent self.old self.new.anchor) }
        ensures cause { Counts (V.faults dev.old) (V.faults dev.new) (IsErrOf result CoreAlterError.Fault) }
    {
        self.schemas.admits(change)?;
        if self.next_file >= Stone::MOST {
            self.note_free();
            return Err(CoreAlterError::Spent);
        }
        let schemas = self.schemas.with(change)?;
        let stone = self.stone_under(schemas.clone()?)?;
        let schemas = Arc::new(self.alloc, schemas)?;
        // No memory is taken between the descriptor and the table.
        self.publish(dev, stone)?;
        self.schemas = schemas;
        self.count = self.count.saturating_add(1);
        Ok(self.schemas.newest_version())
    }
}
