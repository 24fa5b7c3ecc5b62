ghost use Rattle.std.specs.Prelude.{◌≡◌, ◌∷◌, [], OnOk};
ghost use Rattle.lt_schema.specs.Versions.{lifted_over};

use crate::{AlterError, Change, Row, RowsBuilder, Schema, Value};
use lt_rec::NoMemory;
use std::alloc::{AllocError, Global};
use std::marker::Model;

/// The versions of a table's schema: version 0 is the first schema, and version v the schema after v changes, each of
/// which was admitted by the version before it.
#[derive(Debug, Drop)]
pub struct Schemas {
    versions: Vec<Schema>,
    changes: Vec<Change>,
}

impl Model for Schemas {
    ghost use Rattle.std.specs.Prelude.{◌≡◌, IsTrue};
    ghost use Rattle.lt_schema.specs.Versions.{SchemaVersions, is_versions, all_versions, first_of};

    ghost Value = { SchemaVersions };

    ghost view = { λ s. record { first = first_of s.versions.items; changes = s.changes.items } };

    ghost invariant = { λ s. (s.versions.items ≡ all_versions (record { first = first_of s.versions.items; changes = s.changes.items }))
        × IsTrue (is_versions (record { first = first_of s.versions.items; changes = s.changes.items })) };
}

impl Schemas {
    ghost use Rattle.std.specs.Prelude.{◌≡◌, ◌≤◌, ◌++◌, ◌∷◌, [], length, IsTrue, IfOk, OnOk, MatchResult, Some, None, nat_le, option_copied, if◌then◌else◌};
    ghost use Rattle.lt_schema.specs.Lawful.{is_schema};
    ghost use Rattle.lt_schema.specs.Versions.{newest, newest_version, schema_at, alter_refusal, lift_to_newest, is_versions};

    /// The first schema alone.
    pub fn of(alloc: Global, first: Schema) -> Result<Schemas, NoMemory>
        ensures value { IfOk result (λ schemas. schemas ≡ record { first = first; changes = [] }) }
    {
        let mut versions = Vec::with_capacity(alloc, 1)?;
        versions.push(first)?;
        Ok(Schemas {
            versions,
            changes: Vec::new(alloc),
        })
    }

    /// The first schema. Takes no memory.
    pub fn first(&self) -> &Schema
        ensures value { result.now ≡ self.now.first }
        ensures lawful { IsTrue (is_versions self.now) }
    {
        &self.versions[0]
    }

    /// The changes since the first schema. Takes no memory.
    pub fn changes(&self) -> &[Change]
        ensures value { result.now ≡ self.now.changes }
        ensures few { length result.now ≤ 127 }
        ensures lawful { IsTrue (is_versions self.now) }
    {
        self.changes.as_slice()
    }

    /// The schema after all changes. Takes no memory.
    pub fn newest(&self) -> &Schema
        ensures value { result.now ≡ newest self.now }
        ensures lawful { IsTrue (is_schema (newest self.now)) }
    {
        &self.versions[self.changes.len()]
    }

    /// The number of the newest version: how many changes there are. Takes no memory.
    pub fn newest_version(&self) -> u32
        ensures value { result ≡ newest_version self.now }
        ensures few { result ≤ 127 }
        ensures lawful { IsTrue (is_versions self.now) }
    {
        self.changes().len() as u32
    }

    /// The schema of a version; `None` exactly where there is no such version. Takes no memory.
    pub fn version(&self, ver: u32) -> Option<&Schema>
        ensures value { option_copied result ≡ (if nat_le ver (newest_version self.now) then Some (schema_at self.now ver) else None) }
        ensures lawful { IsTrue (is_versions self.now) }
    {
        if ver > self.newest_version() {
            return None;
        }
        Some(&self.versions[ver as usize])
    }

    /// Whether a change may follow; else the first cause against it. Takes no memory.
    pub fn admits(&self, change: &Change) -> Result<(), AlterError>
        ensures exact { MatchResult result (λ _. alter_refusal (newest self.now) change.now ≡ None) (λ why. alter_refusal (newest self.now) change.now ≡ Some why) }
    {
        self.newest().admits(change)
    }

    /// The versions with one more, which the change makes.
    pub fn with(&self, change: &Change) -> Result<Schemas, NoMemory>
        requires admitted { alter_refusal (newest self.now) change.now ≡ None }
        ensures value { IfOk result (λ schemas. schemas ≡ record { first = self.now.first; changes = self.now.changes ++ change.now ∷ [] }) }
    {
        let next = self.newest().changed(change)?;
        let Schemas {
            mut versions,
            mut changes,
        } = self.clone()?;
        versions.push(next)?;
        changes.push(change.clone()?)?;
        Ok(Schemas { versions, changes })
    }

    /// The row of a version under the newest one: a widened integer keeps its number, and each column that was appended
    /// since has its default.
    pub fn lift(&self, row: &Row, ver: u32) -> Result<Row, NoMemory>
        ensures value { IfOk result (λ lifted. lifted ≡ lift_to_newest self.now row.now ver) }
    {
        let changes = self.changes.as_slice();
        let (_, since) = changes.split_at(changes.len().min(ver as usize));
        let mut values = row.clone()?.into_vec();
        lift_over(&mut values, since)?;
        Ok(Row::from_vec(values))
    }

    /// Lifts the row that was begun, in place: it is of a version, and becomes one of the newest.
    pub fn lift_begun(&self, ver: u32, rows: &mut RowsBuilder) -> Result<(), NoMemory>
        ensures lifted { OnOk result (rows.new ≡ record { rows = rows.old.rows; row = lift_to_newest self.now rows.old.row ver }) }
        ensures whole { rows.new.rows ≡ rows.old.rows }
    {
        let changes = self.changes.as_slice();
        let (_, since) = changes.split_at(changes.len().min(ver as usize));
        push_over(rows, since)
    }
}

fn push_over(rows: &mut RowsBuilder, changes: &[Change]) -> Result<(), NoMemory>
    ensures lifted { OnOk result (rows.new ≡ record { rows = rows.old.rows; row = lifted_over changes.now rows.old.row }) }
    ensures whole { rows.new.rows ≡ rows.old.rows }
{
    for change in changes {
        push_one(rows, change)?;
    }
    Ok(())
}

fn push_one(rows: &mut RowsBuilder, change: &Change) -> Result<(), NoMemory>
    ensures lifted { OnOk result (rows.new ≡ record { rows = rows.old.rows; row = lifted_over (change.now ∷ []) rows.old.row }) }
    ensures whole { rows.new.rows ≡ rows.old.rows }
{
    if let Change::Append(column) = change {
        rows.push(column.default().view())?;
    }
    Ok(())
}

fn lift_over(values: &mut Vec<Value>, changes: &[Change]) -> Result<(), NoMemory>
    ensures { OnOk result (values.new.items ≡ lifted_over changes.now values.old.items) }
{
    for change in changes {
        lift_one(values, change)?;
    }
    Ok(())
}

fn lift_one(values: &mut Vec<Value>, change: &Change) -> Result<(), NoMemory>
    ensures { OnOk result (values.new.items ≡ lifted_over (change.now ∷ []) values.old.items) }
{
    if let Change::Append(column) = change {
        values.push(column.default().clone()?)?;
    }
    Ok(())
}

impl Clone for Schemas {
    ghost use Rattle.std.specs.Prelude.{◌≡◌};

    ghost is_clone = { λ x y. x ≡ y };

    fn clone(&self) -> Result<Schemas, AllocError> {
        let mut versions = Vec::with_capacity(*self.versions.allocator(), self.versions.len())?;
        for schema in self.versions.as_slice() {
            versions.push(schema.clone()?)?;
        }
        let mut changes = Vec::with_capacity(*self.changes.allocator(), self.changes.len())?;
        for change in self.changes.as_slice() {
            changes.push(change.clone()?)?;
        }
        Ok(Schemas { versions, changes })
    }
}
