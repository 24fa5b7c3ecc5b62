//! A table as a list of rows in the order of their numbers. Each call looks at all of them.
ghost use Rattle.std.specs.Prelude.{◌≡◌, ◌≢◌, IfOk, IfSome, IfNone, OnErr, All, ℕ};
ghost use Rattle.lt_schema.specs.Check.{key_of};
ghost use Rattle.lt_plain.specs.Table.{HoldsKey};

use crate::bounds::query_fault;
use crate::boxes::may_limit;
use crate::numbered_row::NumberedRow;
use crate::pages::page_of;
use crate::rows::{has_key_of, time};
use lt_command::{Query, Reply};
use lt_rec::NoMemory;
use lt_schema::{Row, Schema, Schemas, Value};
use std::alloc::Global;
use std::marker::Model;

/// Numbers of rows are below this one.
const NUMBERS: u64 = 1 << 62;

/// What an opening finds of a table, and what was added since. Contracts see it as an opening that finds all of it.
#[derive(Debug, Drop)]
pub struct ListTable {
    schemas: Schemas,
    ttl: Option<u64>,
    low: u64,
    next: u64,
    kept: u64,
    rows: Vec<NumberedRow>,
}

impl Model for ListTable {
    ghost use Rattle.lt_model.specs.History.{Opening};

    ghost Value = { Opening };

    ghost view = { λ t. record { schemas = t.schemas; ttl = t.ttl; low = t.low; next = t.next; kept = t.kept; rows = t.rows.items } };
}

/// The number of the row with the same key.
fn number_of(schema: &Schema, rows: &[NumberedRow], row: &[Value]) -> Option<u64>
    ensures found { IfSome result (HoldsKey schema.now rows.now row.now) }
    ensures absent { IfNone result (All (λ other. key_of schema.now other.row ≢ key_of schema.now row.now) rows.now) }
{
    for numbered in rows {
        if has_key_of(schema, numbered.values(), row) {
            return Some(numbered.seq());
        }
    }
    None
}

impl ListTable {
    ghost use Rattle.std.specs.Prelude.{◌≡◌, ◌≢◌, ◌<◌, ◌^◌, IfOk, OnErr, OnOk, ℕ};
    ghost use Rattle.lt_command.specs.declared.command.Command.TheVariants.{Insert, Scan, Alter};
    ghost use Rattle.lt_model.specs.Readings.{bound_at};
    ghost use Rattle.lt_schema.specs.Versions.{newest, newest_version, alter_refusal};
    ghost use Rattle.lt_schema.specs.declared.change.Change.{Change as SchemaChange};
    ghost use Rattle.lt_plain.specs.Table.{Answers, IsUndamaged, with_row, with_change, rest_of};

    /// The table that an opening finds: its schemas, its time to live and its low bound in microseconds, the next row's
    /// number, the number below which all is durable, and its rows. Takes no memory.
    pub fn open(
        schemas: Schemas,
        ttl: Option<u64>,
        low: u64,
        next: u64,
        kept: u64,
        rows: Vec<NumberedRow>,
    ) -> ListTable
        ensures { result ≡ record { schemas = schemas; ttl = ttl; low = low; next = next; kept = kept; rows = rows.items } }
    {
        ListTable {
            schemas,
            ttl,
            low,
            next,
            kept,
            rows,
        }
    }

    /// The versions of its schema.
    pub fn schemas(&self) -> &Schemas
        ensures { result.now ≡ self.now.schemas }
    {
        &self.schemas
    }

    /// The time to live, in microseconds.
    pub fn ttl(&self) -> Option<u64>
        ensures { result ≡ self.now.ttl }
    {
        self.ttl
    }

    /// The bound below which rows are gone.
    pub fn low(&self) -> u64
        ensures { result ≡ self.now.low }
    {
        self.low
    }

    /// The next row's number.
    pub fn next(&self) -> u64
        ensures { result ≡ self.now.next }
    {
        self.next
    }

    /// The number below which all is durable.
    pub fn kept(&self) -> u64
        ensures { result ≡ self.now.kept }
    {
        self.kept
    }

    /// Rows from this timestamp on are unexpired at that moment.
    fn since(&self, now: u64) -> u64
        ensures { result ≡ bound_at self.now.ttl self.now.low now }
    {
        match self.ttl {
            None => self.low,
            Some(ttl) => self.low.max(now.saturating_sub(ttl)),
        }
    }

    /// Puts the row at the end, under the next number and the newest version.
    fn push(&mut self, row: Row) -> Result<(), NoMemory>
        requires { self.old.next < 2 ^ 62 }
        ensures pushed { OnOk result (self.new ≡ with_row self.old row) }
        ensures unchanged { OnErr result (self.new ≡ self.old) }
    {
        let numbered = NumberedRow::new(self.next, self.schemas.newest_version(), row);
        self.rows.push(numbered)?;
        self.next += 1;
        Ok(())
    }

    /// Adds the row under the next number, or answers the first cause against it.
    pub fn insert(&mut self, row: Row, now: u64) -> Result<Reply, NoMemory>
        ensures answered { IfOk result (Answers self.old self.new now (Insert row)) }
        ensures rest { rest_of self.new ≡ rest_of self.old }
        ensures no_fault { IfOk result (λ reply. reply ≢ Reply.Fault) }
        ensures undamaged { IfOk result IsUndamaged }
        ensures unchanged { OnErr result (self.new ≡ self.old) }
    {
        if let Err(fault) = self.schemas.newest().check(row.as_slice()) {
            return Ok(Reply::BadRow { fault });
        }
        let since = self.since(now);
        let schema = self.schemas.first();
        if time(schema, row.as_slice()) < since {
            return Ok(Reply::TooOld { since });
        }
        if let Some(seq) = number_of(schema, self.rows.as_slice(), row.as_slice()) {
            return Ok(Reply::Present { seq });
        }
        let seq = self.next;
        if seq >= NUMBERS {
            return Ok(Reply::Spent);
        }
        self.push(row)?;
        Ok(Reply::Inserted { seq })
    }

    /// Shows the first of the box's unexpired rows in the query's order, up to its limit, under the newest schema.
    pub fn scan(&self, alloc: Global, query: &Query, now: u64) -> Result<Reply, NoMemory>
        ensures answered { IfOk result (Answers self.now self.now now (Scan query.now)) }
        ensures no_fault { IfOk result (λ reply. reply ≢ Reply.Fault) }
        ensures undamaged { IfOk result IsUndamaged }
    {
        if !may_limit(query.limit) {
            return Ok(Reply::BadLimit { given: query.limit });
        }
        if let Some(fault) = query_fault(self.schemas.newest(), query) {
            return Ok(Reply::BadBound { fault });
        }
        let since = self.since(now);
        let page = page_of(alloc, &self.schemas, query, since, self.rows.as_slice())?;
        Ok(Reply::Rows {
            rows: page.rows,
            more: page.more,
            place: self.next,
            since,
        })
    }

    /// Puts the schemas that a change made in place of those before it. Takes no memory.
    pub fn replace_schemas(&mut self, schemas: Schemas) -> Reply
        ensures replaced { self.new ≡ record self.old { schemas = schemas } }
        ensures version { result ≡ Reply.Version (newest_version schemas) }
        ensures answered { (change : SchemaChange) (now : ℕ) → alter_refusal (newest self.old.schemas) change ≡ None → self.new ≡ with_change self.old change → Answers self.old self.new now (Alter change) result }
    {
        self.schemas = schemas;
        let version = u64::from(self.schemas.newest_version());
        Reply::Version { version }
    }
}
