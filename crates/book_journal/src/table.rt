//! The table, and how an open tells whether a database has it.

ghost use Rattle.std.specs.Prelude.{◌≡◌, ◌↔◌, IsTrue};
ghost use Rattle.book_journal.specs.Table.{entry_table, journal_schema, no_schema, strict_column, HasNoRule};

use sqlite::types::Value;
use sqlite_schema::schema::{Column, Kind, Schema, Table};
use sqlite_value::keys::Collation;

/// What makes the table.
pub(crate) const CREATE: &str =
    "CREATE TABLE entry(no INTEGER PRIMARY KEY, line TEXT NOT NULL) STRICT";

/// Whether the database has no table, index, view or trigger at all.
pub(crate) fn is_blank(schema: &Schema) -> bool
    ensures { IsTrue result ↔ (schema.now ≡ no_schema) }
{
    schema.tables.is_empty() & schema.indexes.is_empty() & schema.views.is_empty()
}

fn is_column(column: &Column, name: &[u8], kind: Kind, not_null: bool) -> bool
    ensures { IsTrue result ↔ (column.now ≡ strict_column name.now kind not_null) }
{
    matches!(column.default, Value::Null)
        && column.name.as_slice() == name
        && column.kind == kind
        && column.is_strict
        && column.not_null == not_null
        && column.collation == Collation::Binary
}

fn has_columns(columns: &[Column]) -> bool
    ensures { IsTrue result ↔ (columns.now ≡ entry_table.columns) }
{
    match columns {
        [no, line] => is_column(no, b"no".as_slice(), Kind::Integer, false)
            && is_column(line, b"line".as_slice(), Kind::Text, true),
        _ => false,
    }
}

fn is_plain(table: &Table) -> bool
    ensures { IsTrue result ↔ HasNoRule table.now }
{
    table.uniques.is_empty()
        & table.orders.is_empty()
        & table.checks.roots.is_empty()
        & table.references.is_empty()
        & table.computed.is_empty()
        & table.stamps.places.is_empty()
        & table.stamps.terms.roots.is_empty()
        & table.stamps.formats.is_empty()
}

fn is_entry_table(table: &Table) -> bool
    ensures { IsTrue result ↔ (table.now ≡ entry_table) }
{
    table.name.as_slice() == b"entry".as_slice()
        && table.tree == 0
        && has_columns(table.columns.as_slice())
        && table.key == Some(0)
        && table.primary.as_slice() == [0].as_slice()
        && is_plain(table)
        && !table.is_counted
}

/// Whether the database has the journal's table, as `CREATE` makes it, and nothing else.
pub(crate) fn is_journal(schema: &Schema) -> bool
    ensures { IsTrue result ↔ (schema.now ≡ journal_schema) }
{
    match schema.tables.as_slice() {
        [table] => is_entry_table(table) & schema.indexes.is_empty() & schema.views.is_empty(),
        _ => false,
    }
}
