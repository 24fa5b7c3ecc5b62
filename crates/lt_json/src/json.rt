// Schemas as JSON: {"columns":[{"name":..,"kind":..,"default":..},..],"key":N}. No recursion over the input happens here.

ghost use Rattle.std.specs.Prelude.{◌≡◌, ◌<◌, ◌≤◌, [], length, map, drop, codes, Some, None, IfOk, IfErr, IfSome, IsTrue, ◌≢◌, ◌+◌, ◌-◌, option_map, unwrap_or, slice_get};
ghost use Rattle.std.specs.List.{list_any};
ghost use Rattle.serde_json.specs.View.{view};
ghost use Rattle.lt_schema.specs.Lawful.{is_time_column};
ghost use Rattle.lt_json.specs.declared.json.SchemaError.TheVariants.{NoMemory as WantOfMemory};
ghost use Rattle.lt_json.specs.FromJson.{SaysSchema, IsCause, shape_refusal, refusal_in, schema_in, is_whole, columns_in, key_in, members_in, name_in, kind_in, kind_of, is_column, misshapen_from, twice_from, names_in, is_same, bad_default_from, lawful_default, default_in, default_of, value_of, column_in, IsBadDefault};

use lt_hex::hex_bytes;
use lt_rec::{Label, NoMemory};
use lt_schema::{Column, Columns, Kind, Schema, Value};
use serde_json::Value as Json;
use std::alloc::{AllocError, AllocFailed, Global};

/// Why a text says no schema: the first of these that holds. Columns count from 0.
#[derive(Clone, Copy, Debug, PartialEq, Eq)]
pub enum SchemaError {
    /// The bytes are no JSON text.
    NotJson,
    /// The text has another form. 0: it is no object of exactly `columns` and `key`; 1: `columns` is no list or is empty;
    /// 2: `key` is no whole number from 1 to the number of columns; 3 + i: column i is no object of a lawful `name`, a
    /// `kind` and perhaps a `default`.
    Shape { field: u64 },
    /// The last column of the key isn't a time.
    NoTime,
    /// There are more than 64 columns.
    TooMany { count: u64 },
    /// The column, the least such one, has the name of an earlier one.
    Twice { column: u32 },
    /// The default of this column, the least such one, isn't of its kind, or is longer than 1,024 bytes.
    BadDefault { column: u32 },
    NoMemory,
}

impl From<NoMemory> for SchemaError {
    ghost use Rattle.std.specs.Prelude.{◌≡◌};
    ghost use Rattle.lt_json.specs.declared.json.SchemaError.TheVariants.{NoMemory as WantOfMemory};

    ghost from_gives = { λ _ e. e ≡ WantOfMemory };

    fn from(_refused: NoMemory) -> SchemaError {
        SchemaError::NoMemory
    }
}

impl From<AllocError> for SchemaError {
    ghost use Rattle.std.specs.Prelude.{◌≡◌};
    ghost use Rattle.lt_json.specs.declared.json.SchemaError.TheVariants.{NoMemory as WantOfMemory};

    ghost from_gives = { λ _ e. e ≡ WantOfMemory };

    fn from(_refused: AllocError) -> SchemaError {
        SchemaError::NoMemory
    }
}

impl<T: Drop> From<AllocFailed<T>> for SchemaError {
    ghost use Rattle.std.specs.Prelude.{◌≡◌};
    ghost use Rattle.lt_json.specs.declared.json.SchemaError.TheVariants.{NoMemory as WantOfMemory};

    ghost from_gives = { λ _ e. e ≡ WantOfMemory };

    fn from(_refused: AllocFailed<T>) -> SchemaError {
        SchemaError::NoMemory
    }
}

/// The schema that a JSON text says; else the first refusal that holds.
pub fn schema_from_json(alloc: Global, bytes: &[u8]) -> Result<Schema, SchemaError>
    ensures says { IfOk result (λ schema. SaysSchema bytes.now schema) }
    ensures cause { IfErr result (λ e. IsCause bytes.now e) }
{
    match Json::from_slice(alloc, bytes) {
        Ok(json) => schema_of(alloc, &json),
        Err(error) if error.is_memory() => Err(SchemaError::NoMemory),
        Err(_) => Err(SchemaError::NotJson),
    }
}

fn schema_of(alloc: Global, json: &Json) -> Result<Schema, SchemaError>
    ensures unrefused { IfOk result (λ schema. refusal_in (view json.now) ≡ None) }
    ensures value { IfOk result (λ schema. schema ≡ schema_in (view json.now)) }
    ensures cause { IfErr result (λ e. e ≢ WantOfMemory → refusal_in (view json.now) ≡ Some e) }
{
    if let Some(refusal) = shape_refusal(json) {
        return Err(refusal);
    }
    let columns = columns_in(json);
    let key_len = key_len_in(json, columns.len());
    if !is_timed(columns, key_len) {
        return Err(SchemaError::NoTime);
    }
    if columns.len() > Schema::MOST_COLUMNS {
        return Err(SchemaError::TooMany {
            count: columns.len() as u64,
        });
    }
    if let Some(column) = twice(columns) {
        return Err(SchemaError::Twice { column });
    }
    match read_columns(alloc, columns) {
        Ok(columns) => Ok(Schema::new(Columns::from_vec(columns), key_len as u32)),
        Err(refusal) => Err(refusal),
    }
}

/// What speaks against the form of the text.
#[tactic(auto, unfolding(crate::specs::FromJson::shape_refusal))]
fn shape_refusal(json: &Json) -> Option<SchemaError>
    ensures { result ≡ shape_refusal (view json.now) }
{
    if !is_whole(json) {
        return Some(SchemaError::Shape { field: 0 });
    }
    let columns = columns_in(json);
    if columns.is_empty() {
        return Some(SchemaError::Shape { field: 1 });
    }
    if key_in(json, columns.len()).is_none() {
        return Some(SchemaError::Shape { field: 2 });
    }
    match misshapen(columns) {
        None => None,
        Some(column) => Some(SchemaError::Shape {
            field: 3 + column as u64,
        }),
    }
}

/// How many members an object has, and 0 of all else.
#[tactic(auto, using(crate::proofs::Items::count_of_members_of))]
fn members_in(json: &Json) -> usize
    ensures { result ≡ members_in (view json.now) }
{
    match json.as_object() {
        None => 0,
        Some(members) => members.len(),
    }
}

/// Whether it is an object of exactly `columns` and `key`.
#[tactic(auto, unfolding(crate::specs::FromJson::is_whole))]
fn is_whole(json: &Json) -> bool
    ensures { result ≡ is_whole (view json.now) }
{
    json.get("columns").is_some() && json.get("key").is_some() && members_in(json) == 2
}

/// The elements of `columns`; none where it is no list.
#[tactic(auto, using(crate::proofs::Items::list_of_items_of), unfolding(crate::specs::FromJson::columns_in))]
fn columns_in(json: &Json) -> &[Json]
    ensures { map view result.now ≡ columns_in (view json.now) }
{
    let Some(columns) = json.get("columns") else {
        return &[];
    };
    match columns.as_array() {
        None => &[],
        Some(columns) => columns.as_slice(),
    }
}

/// `key`, where it is a whole number from 1 to the number of columns.
#[tactic(auto, unfolding(crate::specs::FromJson::key_in))]
fn key_in(json: &Json, columns: usize) -> Option<usize>
    requires { columns ≡ length (columns_in (view json.now)) }
    ensures value { result ≡ key_in (view json.now) }
    ensures within { IfSome result (λ n. n ≤ columns) }
{
    let key = json.get("key").and_then(Json::as_u64)?;
    if key < 1 || key > columns as u64 {
        return None;
    }
    Some(key as usize)
}

/// The number of key columns, where it is one.
fn key_len_in(json: &Json, columns: usize) -> usize
    requires { columns ≡ length (columns_in (view json.now)) }
    ensures value { result ≡ unwrap_or (key_in (view json.now)) 1 }
    ensures within { result ≤ columns + 1 }
{
    match key_in(json, columns) {
        None => 1,
        Some(key_len) => key_len,
    }
}

/// The name of a column; empty where it is no string.
fn name_in(column: &Json) -> &str
    ensures { result.now ≡ name_in (view column.now) }
{
    column.get("name").and_then(Json::as_str).unwrap_or("")
}

#[tactic(auto, unfolding(crate::specs::FromJson::kind_in))]
fn kind_in(column: &Json) -> Option<Kind>
    ensures { result ≡ kind_in (view column.now) }
{
    Kind::named(column.get("kind").and_then(Json::as_str)?.as_bytes())
}

fn kind_of(column: &Json) -> Kind
    ensures { result ≡ kind_of (view column.now) }
{
    kind_in(column).unwrap_or(Kind::Int64)
}

/// Whether the last of so many columns is a time.
#[tactic(auto, unfolding(crate::specs::FromJson::column_in))]
fn is_timed(columns: &[Json], key_len: usize) -> bool
    ensures { result ≡ is_time_column (slice_get (map column_in (map view columns.now)) (key_len - 1)) }
{
    match columns.get(key_len.saturating_sub(1)) {
        None => false,
        Some(column) => kind_of(column).is_time(),
    }
}

/// Whether it is an object of exactly a lawful `name`, a `kind` and perhaps a `default`.
#[tactic(auto, unfolding(crate::specs::FromJson::is_column))]
fn is_column(json: &Json) -> bool
    ensures { result ≡ is_column (view json.now) }
{
    let members = if json.get("default").is_some() { 3 } else { 2 };
    Column::is_name(name_in(json).as_bytes())
        && kind_in(json).is_some()
        && members_in(json) == members
}

/// The least column of another form.
#[tactic(auto, unfolding(crate::specs::FromJson::misshapen_from))]
fn misshapen(columns: &[Json]) -> Option<usize>
    ensures value { result ≡ misshapen_from 0 (map view columns.now) }
    ensures within { IfSome result (λ at. at < length columns.now) }
{
    for (at, column) in columns.iter().enumerate() {
        if !is_column(column) {
            return Some(at);
        }
    }
    None
}

/// The least column that has the name of an earlier one.
#[tactic(auto, unfolding(crate::specs::FromJson::twice_from))]
fn twice(columns: &[Json]) -> Option<u32>
    requires { length columns.now ≤ 64 }
    ensures { result ≡ twice_from 0 [] (names_in (map view columns.now)) }
{
    for (at, column) in columns.iter().enumerate() {
        let (earlier, _) = columns.split_at(at);
        if is_taken(name_in(column), earlier) {
            return Some(at as u32);
        }
    }
    None
}

/// Whether one of the columns has the name.
fn is_taken(name: &str, columns: &[Json]) -> bool
    ensures { result ≡ list_any (is_same name.now) (names_in (map view columns.now)) }
{
    for column in columns {
        if name == name_in(column) {
            return true;
        }
    }
    false
}

/// The columns with their defaults.
#[tactic(auto, unfolding(crate::specs::FromJson::bad_default_from))]
fn read_columns(alloc: Global, columns: &[Json]) -> Result<Vec<Column>, SchemaError>
    requires few { length columns.now ≤ 64 }
    requires shaped { misshapen_from 0 (map view columns.now) ≡ None }
    ensures lawful { IfOk result (λ read. bad_default_from 0 (map view columns.now) ≡ None) }
    ensures value { IfOk result (λ read. read.items ≡ map column_in (map view columns.now)) }
    ensures cause { IfErr result (λ e. IsBadDefault e (bad_default_from 0 (map view columns.now))) }
{
    let mut read = Vec::with_capacity(alloc, columns.len())?;
    for (at, column) in columns.iter().enumerate() {
        match read_column(alloc, column)? {
            None => return Err(SchemaError::BadDefault { column: at as u32 }),
            Some(column) => read.push(column)?,
        }
    }
    Ok(read)
}

/// The column with its default, where that is lawful.
#[tactic(auto, unfolding(crate::specs::FromJson::lawful_default, crate::specs::FromJson::column_in))]
fn read_column(alloc: Global, column: &Json) -> Result<Option<Column>, NoMemory>
    requires { IsTrue (is_column (view column.now)) }
    ensures lawful { IfOk result (λ read. option_map (λ c. c.default) read ≡ lawful_default (view column.now)) }
    ensures value { IfOk result (λ read. IfSome read (λ c. c ≡ column_in (view column.now))) }
{
    let kind = kind_of(column);
    let Some(default) = default_of(alloc, kind, column)? else {
        return Ok(None);
    };
    let name = Label::copy_of(alloc, name_in(column))?;
    Ok(Some(Column::new(name, kind, default)))
}

/// The default, where it is of the kind and at most 1,024 bytes; one that is missing is 0 or empty.
fn default_of(alloc: Global, kind: Kind, column: &Json) -> Result<Option<Value>, NoMemory>
    ensures { IfOk result (λ o. o ≡ default_of kind (default_in (view column.now))) }
{
    let Some(json) = column.get("default") else {
        return Ok(Some(kind.blank(alloc)));
    };
    match value_of(alloc, kind, json)? {
        Some(value) if Column::is_default(kind, &value) => Ok(Some(value)),
        _ => Ok(None),
    }
}

/// What a JSON value is as a value of a kind.
fn value_of(alloc: Global, kind: Kind, json: &Json) -> Result<Option<Value>, NoMemory>
    ensures { IfOk result (λ o. o ≡ value_of kind (view json.now)) }
{
    match kind {
        Kind::Int32 | Kind::Int64 | Kind::Time => Ok(json.as_i64().map(Value::Int)),
        Kind::Text => match json.as_str() {
            None => Ok(None),
            Some(text) => Ok(Some(Value::Text(Label::copy_of(alloc, text)?))),
        },
        Kind::Blob => match json.as_str() {
            None => Ok(None),
            Some(text) => Ok(hex_bytes(alloc, text.as_bytes())?.map(Value::Blob)),
        },
    }
}
