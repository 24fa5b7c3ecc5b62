//! A table, and the directory whose descriptor tells of it.
ghost use Rattle.std.specs.Prelude.{◌≡◌, ◌≤◌, ◌^◌, ◌<◌, IsTrue, IfOk, OnErr};
ghost use Rattle.lt_plain.specs.Table.{IsUndamaged};
ghost use Rattle.lt_serve.specs.Kept.{altered_reply, is_ttl};

use lt_command::{Command, Reply};
use lt_commit::{Anchor, CommitError};
use lt_desc::{Stone, Tablets};
use lt_io::Device;
use lt_plain::ListTable;
use lt_rec::NoMemory;
use lt_schema::{Change, Schemas};
use std::alloc::Global;

/// A table without rows in files, and the directory whose descriptor tells of it.
#[derive(Drop)]
pub struct Store<V: Device> {
    table: ListTable,
    anchor: Anchor<V>,
    // Files from this number on are free.
    next_file: u64,
    ghost kept: { table.kept ≤ 2 ^ 62 },
    ghost low: { table.low < 2 ^ 62 },
    ghost ttl: { IsTrue (is_ttl table.ttl) },
    ghost free: { anchor.directory.now.ceiling ≤ next_file },
    ghost in_range: { next_file ≤ 2 ^ 62 },
}

/// The reply, or that memory was wanted.
fn reply_or_no_memory(answered: Result<Reply, NoMemory>) -> Reply
    ensures reply { IfOk answered (λ reply. result ≡ reply) }
    ensures no_memory { OnErr answered (result ≡ Reply.NoMemory) }
    ensures undamaged { IfOk answered IsUndamaged → IsUndamaged result }
{
    match answered {
        Ok(reply) => reply,
        Err(NoMemory) => Reply::NoMemory,
    }
}

/// The reply to a change, also to one that was not published.
fn reply_to_change(altered: Result<Reply, CommitError>) -> Reply
    ensures { result ≡ altered_reply altered }
{
    match altered {
        Ok(reply) => reply,
        Err(CommitError::Spent) => Reply::Spent,
        Err(CommitError::Fault) => Reply::Fault,
        Err(CommitError::NoMemory) => Reply::NoMemory,
    }
}

impl<V: Device> Store<V> {
    ghost use Rattle.std.specs.Prelude.{◌≡◌, ◌≢◌, ◌≤◌, ◌<◌, ◌+◌, ◌^◌, ◌∷◌, [], ℕ, true, Some, Ok, None, IfOk, IfErr, OnOk, OnErr, IsErrOf, IsTrue};
    ghost use Rattle.lt_io.specs.Device.{Counts};
    ghost use Rattle.lt_io.specs.Directory.{lent};
    ghost use Rattle.lt_io.specs.Steps.{Steps};
    ghost use Rattle.lt_desc.specs.Lawful.{IsStone};
    ghost use Rattle.lt_desc.specs.Spelling.{spelling};
    ghost use Rattle.lt_command.specs.declared.command.Command.TheVariants.{Alter};
    ghost use Rattle.lt_plain.specs.Table.{Answers, IsUndamaged};
    ghost use Rattle.lt_serve.specs.Session.{is_built};
    ghost use Rattle.lt_serve.specs.Growing.{is_change, number_weight, numbers_for};
    ghost use Rattle.lt_serve.specs.Kept.{commit_reply, altered_reply, frame_of, Told, told_of, told_by_change, told_by_command, AllTell, Renews, StaysKept, LendsInTurn};

    /// A table, the anchor of its directory, and the next free file number.
    pub fn new(table: ListTable, anchor: Anchor<V>, next_file: u64) -> Store<V>
        requires kept { table.kept ≤ 2 ^ 62 }
        requires low { table.low < 2 ^ 62 }
        requires ttl { IsTrue (is_ttl table.ttl) }
        requires free { anchor.directory.now.ceiling ≤ next_file }
        requires in_range { next_file ≤ 2 ^ 62 }
        ensures table { result.table ≡ table }
        ensures directory { result.anchor.directory ≡ anchor.directory }
        ensures number { result.next_file ≡ next_file }
    {
        Store {
            table,
            anchor,
            next_file,
        }
    }

    pub fn table(&self) -> &ListTable
        ensures { result.now ≡ self.now.table }
    {
        &self.table
    }

    /// The directory given back.
    pub fn into_dir(self) -> V::Dir
        ensures same { V.directory result ≡ self.anchor.directory }
        ensures ceiling { (V.directory result).now.ceiling ≤ self.next_file }
    {
        let Store {
            table: _table,
            anchor,
            next_file: _next_file,
        } = self;
        anchor.into_dir()
    }

    /// The stone of the table under these schemas, whose descriptor file has that number. Takes no memory.
    fn stone_under(&self, alloc: Global, schemas: Schemas, file: u64) -> Stone
        requires { file < 2 ^ 62 }
        ensures parts { result ≡ record { kept = self.now.table.kept; low = self.now.table.low; ttl = self.now.table.ttl; next_file = file + 1; schemas = schemas; tablets = [] } }
        ensures lawful { IsStone result }
    {
        // That the first is lawful is known once it is read.
        let _first = schemas.first();
        Stone::new(
            self.table.kept(),
            self.table.low(),
            self.table.ttl(),
            file + 1,
            schemas,
            Tablets::from_vec(Vec::new(alloc)),
        )
    }

    /// Publishes the table's stone under other schemas, by the next free file number.
    fn publish(
        &mut self,
        alloc: Global,
        device: &mut V,
        schemas: Schemas,
    ) -> Result<(), CommitError>
        ensures table { self.new.table ≡ self.old.table }
        ensures any_moment { V.honest ≡ true → Steps (Renews (frame_of self.old.table) (told_of schemas)) self.old.anchor.directory self.new.anchor.directory }
        ensures published { V.honest ≡ true → OnOk result (AllTell (frame_of self.old.table) (told_of schemas) self.new.anchor.directory.now) }
        ensures only_lent { V.honest ≡ true → IsErrOf result CommitError.NoMemory → self.new.anchor.directory ≡ lent self.old.anchor.directory self.old.next_file }
        ensures spent_none { IsErrOf result CommitError.Spent → self.new.anchor.directory ≡ self.old.anchor.directory }
        ensures spent { IsErrOf result CommitError.Spent → 2 ^ 62 ≤ self.old.next_file }
        ensures used { OnOk result (self.new.next_file ≤ self.old.next_file + 1) }
        ensures numbers { IfErr result (λ refused. self.new.next_file ≤ self.old.next_file + number_weight (commit_reply refused)) }
        ensures lends { LendsInTurn self.old.next_file self.old.anchor.directory self.new.next_file self.new.anchor.directory }
        ensures cause { Counts (V.faults device.old) (V.faults device.new) (IsErrOf result CommitError.Fault) }
    {
        let file = self.next_file;
        if file >= Stone::MOST {
            return Err(CommitError::Spent);
        }
        let stone = self.stone_under(alloc, schemas, file);
        // The number is used up, whatever comes of it.
        self.next_file = file + 1;
        self.anchor.publish(device, file, stone)
    }

    /// The version that the change makes, or the first cause against it.
    fn alter(
        &mut self,
        alloc: Global,
        device: &mut V,
        change: &Change,
    ) -> Result<Reply, CommitError>
        ensures answered { (now : ℕ) → Answers self.old.table self.new.table now (Alter change.now) (altered_reply result) }
        ensures kept { (told : Told) → told.versions ≡ self.old.table.schemas → StaysKept V.honest self.old.table self.new.table told (told_by_change change.now (altered_reply result) told) self.old.anchor.directory self.new.anchor.directory }
        ensures undamaged { IsUndamaged (altered_reply result) }
        ensures spent { altered_reply result ≡ Reply.Spent → 2 ^ 62 ≤ self.old.next_file }
        ensures numbers { self.new.next_file ≤ self.old.next_file + number_weight (altered_reply result) }
        ensures lends { LendsInTurn self.old.next_file self.old.anchor.directory self.new.next_file self.new.anchor.directory }
        ensures cause { Counts (V.faults device.old) (V.faults device.new) (altered_reply result ≡ Reply.Fault) }
    {
        if let Err(why) = self.table.schemas().admits(change) {
            return Ok(Reply::Refused { why });
        }
        let schemas = self.table.schemas().with(change)?;
        // No memory is taken between the descriptor and the table.
        self.publish(alloc, device, schemas.clone()?)?;
        Ok(self.table.replace_schemas(schemas))
    }

    /// The reply to a command that is built, at that moment.
    pub fn answer(&mut self, alloc: Global, device: &mut V, command: Command, now: u64) -> Reply
        requires built { IsTrue (is_built command) }
        ensures answered { Answers self.old.table self.new.table now command result }
        ensures kept { (told : Told) → told.versions ≡ self.old.table.schemas → StaysKept V.honest self.old.table self.new.table told (told_by_command command result told) self.old.anchor.directory self.new.anchor.directory }
        ensures undamaged { IsUndamaged result }
        ensures spent { IsTrue (is_change command) → result ≡ Reply.Spent → 2 ^ 62 ≤ self.old.next_file }
        ensures numbers { self.new.next_file ≤ self.old.next_file + numbers_for command result }
        ensures lends { LendsInTurn self.old.next_file self.old.anchor.directory self.new.next_file self.new.anchor.directory }
        ensures cause { Counts (V.faults device.old) (V.faults device.new) (result ≡ Reply.Fault) }
    {
        match command {
            Command::Insert { row } => reply_or_no_memory(self.table.insert(row, now)),
            Command::Scan { query } => reply_or_no_memory(self.table.scan(alloc, &query, now)),
            Command::Alter { change } => reply_to_change(self.alter(alloc, device, &change)),
            Command::Latest { prefix: _ }
            | Command::Flush { tablet: _ }
            | Command::Upkeep
            | Command::Tablets => unreachable!(),
        }
    }
}
