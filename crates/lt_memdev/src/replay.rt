ghost use Rattle.std.specs.Prelude.{◌≡◌, IfOk, OnOk};
ghost use Rattle.lt_io.specs.Directory.{State};
ghost use Rattle.lt_memdev.specs.History.{Shows, after, last_of, started};

use crate::change::{Change, Moment};
use crate::content::{Content, share};
use crate::file_map::FileMap;
use lt_rec::NoMemory;
use std::alloc::Global;

/// What stands for good at a moment, made from the changes up to it.
#[derive(Debug, Drop)]
pub(crate) struct Replay {
    pub files: FileMap,
    pub may: Vec<Option<Content>>,
}

impl Replay {
    /// What stands for good after these moments.
    pub(crate) fn of(
        alloc: Global,
        first: &FileMap,
        begun: &Option<Content>,
        past: &[Moment],
    ) -> Result<Replay, NoMemory>
        ensures { IfOk result (λ replay. Shows replay.files replay.may.items (last_of (started first.now begun.now) past.now)) }
    {
        let mut may = Vec::new(alloc);
        may.push(share(begun))?;
        let mut replay = Replay {
            files: first.copy()?,
            may,
        };
        for moment in past {
            replay.apply(&moment.change)?;
        }
        Ok(replay)
    }

    pub(crate) fn apply(&mut self, change: &Change) -> Result<(), NoMemory>
        ensures { OnOk result ((state : State) → Shows self.old.files self.old.may.items state → Shows self.new.files self.new.may.items (after change.now state)) }
    {
        match change {
            Change::Entered { file, bytes } => self.files.put(*file, bytes.share())?,
            Change::Loosened { file } => self.files.take(*file),
            Change::Joined { bytes } => self.may.push(Some(bytes.share()))?,
            Change::Settled { descriptor } => {
                self.may.clear();
                self.may.push(share(descriptor))?;
            }
            Change::Nothing => {}
        }
        Ok(())
    }
}
