ghost use Rattle.std.specs.Prelude.{◌≡◌, ◌<◌, ◌++◌, ◌∷◌, [], length, map, find, IsTrue, IfOk, OnOk, Some, None, MatchResult, option_copied};
ghost use Rattle.std.specs.List.{list_any};
ghost use Rattle.lt_schema.specs.Names.{is_name};
ghost use Rattle.lt_schema.specs.Lawful.{is_schema, has_name, has_lawful_default, is_short};
ghost use Rattle.lt_schema.specs.declared.change.Change.TheVariants.{Append, Widen};
ghost use Rattle.lt_schema.specs.Versions.{alter_refusal, changed, widened, has_lawful_name};

use crate::{AlterError, Change, Column, Columns, Kind, Schema};
use lt_rec::Label;
use std::alloc::{AllocError, Global};

impl Schema {
    /// The most columns.
    pub const MOST_COLUMNS: usize = 64;

    /// Whether a change may follow; else the first cause against it. Takes no memory.
    pub fn admits(&self, change: &Change) -> Result<(), AlterError>
        ensures exact { MatchResult result (λ _. alter_refusal self.now change.now ≡ None) (λ why. alter_refusal self.now change.now ≡ Some why) }
    {
        match change {
            Change::Append(column) => self.admits_column(column),
            Change::Widen(name) => match self.column(name) {
                None => Err(AlterError::NoColumn),
                Some(column) if column.kind() == Kind::Int32 => Ok(()),
                Some(_) => Err(AlterError::NotInt32),
            },
        }
    }

    fn admits_column(&self, column: &Column) -> Result<(), AlterError>
        ensures exact { MatchResult result (λ _. alter_refusal self.now (Append column.now) ≡ None) (λ why. alter_refusal self.now (Append column.now) ≡ Some why) }
    {
        if self.has_column(column.name()) {
            return Err(AlterError::Exists);
        }
        if self.columns().as_slice().len() >= Schema::MOST_COLUMNS {
            return Err(AlterError::TooMany);
        }
        if !column.has_lawful_default() {
            return Err(AlterError::BadDefault);
        }
        Ok(())
    }

    fn has_column(&self, name: &Label) -> bool
        ensures { result ≡ list_any (has_name name.now) self.now.columns }
    {
        self.columns()
            .as_slice()
            .iter()
            .any(|column| column.name() == name)
    }

    /// The column of this name.
    fn column(&self, name: &Label) -> Option<&Column>
        ensures { option_copied result ≡ find (has_name name.now) self.now.columns }
    {
        self.columns()
            .as_slice()
            .iter()
            .find(|column| column.name() == name)
    }

    /// The schema that an admitted change makes.
    pub fn changed(&self, change: &Change) -> Result<Schema, AllocError>
        requires admitted { alter_refusal self.now change.now ≡ None }
        ensures value { IfOk result (λ schema. schema ≡ changed self.now change.now) }
        ensures lawful_name { OnOk result (IsTrue (has_lawful_name change.now)) }
    {
        match change {
            Change::Append(column) => self.appended(column),
            Change::Widen(name) => self.widened(name),
        }
    }

    fn appended(&self, column: &Column) -> Result<Schema, AllocError>
        requires admitted { alter_refusal self.now (Append column.now) ≡ None }
        ensures value { IfOk result (λ schema. schema ≡ changed self.now (Append column.now)) }
        ensures lawful_name { OnOk result (IsTrue (is_name column.now.name)) }
    {
        let name = column.name().clone()?;
        let mut columns = self.columns().clone()?.into_vec();
        columns.push(Column::new(name, column.kind(), column.default().clone()?))?;
        Ok(Schema::new(Columns::from_vec(columns), self.key_len()))
    }

    fn widened(&self, name: &Label) -> Result<Schema, AllocError>
        requires admitted { alter_refusal self.now (Widen name.now) ≡ None }
        ensures value { IfOk result (λ schema. schema ≡ changed self.now (Widen name.now)) }
    {
        let narrow = self.columns().as_slice();
        let columns = widened_columns(self.columns().allocator(), narrow, name)?;
        Ok(Schema::new(Columns::from_vec(columns), self.key_len()))
    }
}

fn widened_columns(
    alloc: Global,
    columns: &[Column],
    name: &Label,
) -> Result<Vec<Column>, AllocError>
    ensures { IfOk result (λ wide. wide.items ≡ map (widened name.now) columns.now) }
{
    let mut wide = Vec::with_capacity(alloc, columns.len())?;
    for column in columns {
        wide.push(widened_column(column, name)?)?;
    }
    Ok(wide)
}

fn widened_column(column: &Column, name: &Label) -> Result<Column, AllocError>
    ensures { IfOk result (λ wide. wide ≡ widened name.now column.now) }
{
    let mut wide = column.clone()?;
    if column.name() == name {
        wide.widen();
    }
    Ok(wide)
}
