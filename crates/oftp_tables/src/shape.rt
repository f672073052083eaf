//! Whether a database has the office's tables.

ghost use Rattle.std.specs.Prelude.{◌≡◌, ◌↔◌, [], ◌∷◌, codes, None, IsTrue, true, false};
ghost use Rattle.sqlite_value.specs.Keys.{plain};
ghost use Rattle.oftp_tables.specs.Schema as schema;
ghost use Rattle.oftp_tables.specs.Schema.{first_schema, no_schema, office_schema, reference_to};
ghost use Rattle.oftp_tables.specs.InsideShape.{AreAlike, catalog_of, columns_of, columns_then, HasNothingElse, index_of, indexes_of, IsFramed, IsKeyed, IsUniqueOn, references_of, table_of, tables_then};

use crate::wanted::{Columns, FIRST, INDEXES, LATER, POSITION, ROW, Wanted};
use sqlite_schema::code::Terms;
use sqlite_schema::schema::{Action, Column, Index, Kind, Reference, Schema, Table};
use sqlite_value::keys::{Collation, Order};
use sqlite_value::value::{Bytes, Value};

// Whether this is the name.
fn is_named(name: &Bytes, text: &str) -> bool
    ensures { IsTrue result ↔ (name.now ≡ text.now) }
{
    name.as_slice() == text.as_bytes()
}

// Whether the lists of column indexes are equal.
fn are_places(places: &[usize], wanted: &[usize]) -> bool
    ensures { IsTrue result ↔ (places.now ≡ wanted.now) }
{
    places == wanted
}

// Whether this is the default order.
fn is_plain(order: Order) -> bool
    ensures { IsTrue result ↔ (order ≡ plain) }
{
    order.digits == 0
}

// Whether this is such a column of one of the office's tables.
fn is_column(column: &Column, name: &str, kind: Kind) -> bool
    ensures { IsTrue result ↔ (column.now ≡ schema.column name.now kind) }
{
    is_named(&column.name, name)
        && column.kind == kind
        && column.is_strict
        && column.not_null
        && matches!(column.default, Value::Null)
        && column.collation == Collation::Binary
}

// Whether the columns are `first` and then those of the parts, in this order.
fn are_columns(columns: &[Column], first: &[(&str, Kind)], parts: &[Columns]) -> bool
    ensures { IsTrue result ↔ (columns.now ≡ columns_then first.now (columns_of parts.now)) }
{
    if let [one, others @ ..] = first {
        let [column, rest @ ..] = columns else {
            return false;
        };
        return is_column(column, one.0, one.1) && are_columns(rest, others, parts);
    }
    let [part, others @ ..] = parts else {
        return columns.is_empty();
    };
    are_columns(columns, part, others)
}

// Whether there is no expression.
fn is_no_term(terms: &Terms) -> bool
    ensures { IsTrue result ↔ (terms.now ≡ []) }
{
    terms.roots.is_empty()
}

// Whether a table has no CHECK, no computed default and no AUTOINCREMENT.
fn has_nothing_else(table: &Table) -> bool
    ensures { IsTrue result ↔ HasNothingElse table.now }
{
    is_no_term(&table.checks)
        && table.computed.is_empty()
        && table.stamps.places.is_empty()
        && is_no_term(&table.stamps.terms)
        && table.stamps.formats.is_empty()
        && !table.is_counted
}

// Whether this is a table with this name in this tree.
fn is_framed(table: &Table, name: &str, tree: u32) -> bool
    ensures { IsTrue result ↔ IsFramed name.now tree table.now }
{
    is_named(&table.name, name) && table.tree == tree && has_nothing_else(table)
}

// Whether this is a table whose key is its number.
fn is_keyed(table: &Table) -> bool
    ensures { IsTrue result ↔ IsKeyed table.now }
{
    match (table.key, table.primary.as_slice()) {
        (Some(key), [place]) => key == 0 && *place == 0,
        _ => false,
    }
}

// Whether a table has just this UNIQUE, or none.
fn is_unique_on(table: &Table, wanted: Option<&[usize]>) -> bool
    ensures { IsTrue result ↔ IsUniqueOn wanted.entry table.now }
{
    let Some(wanted) = wanted else {
        return table.uniques.is_empty() && table.orders.is_empty();
    };
    match (table.uniques.as_slice(), table.orders.as_slice()) {
        ([places], [order]) => are_places(places.as_slice(), wanted) && is_plain(*order),
        _ => false,
    }
}

// Whether the only name is `no`.
fn is_no(names: &[Bytes]) -> bool
    ensures { IsTrue result ↔ (names.now ≡ codes "no" ∷ []) }
{
    match names {
        [no] => is_named(no, "no"),
        _ => false,
    }
}

// Whether this refers to the numbers of a table.
fn is_reference_to(reference: &Reference, place: usize, parent: &str) -> bool
    ensures { IsTrue result ↔ (reference.now ≡ reference_to place parent.now) }
{
    are_places(reference.columns.as_slice(), &[place])
        && is_named(&reference.parent, parent)
        && is_no(reference.parent_columns.as_slice())
        && reference.on_delete == Action::NoAction
        && reference.on_update == Action::NoAction
        && !reference.is_deferred
}

// Whether a table refers just to the numbers of another, or to nothing.
fn refers_to(references: &[Reference], place: usize, parent: Option<&str>) -> bool
    ensures { IsTrue result ↔ (references.now ≡ references_of place parent.entry) }
{
    let Some(parent) = parent else {
        return references.is_empty();
    };
    match references {
        [reference] => is_reference_to(reference, place, parent),
        _ => false,
    }
}

// Whether the table is as wanted, field by field.
fn is_alike(table: &Table, wanted: &Wanted) -> bool
    ensures { IsTrue result ↔ AreAlike table.now (table_of wanted.now) }
{
    match wanted {
        Wanted::Numbered {
            name,
            tree,
            columns,
            unique,
            parent,
        } => {
            is_framed(table, name, *tree)
                && are_columns(table.columns.as_slice(), &[], columns)
                && is_keyed(table)
                && is_unique_on(table, *unique)
                && refers_to(table.references.as_slice(), 0, *parent)
        }
        Wanted::Rows(name, tree, parent) => {
            is_framed(table, name, *tree)
                && are_columns(table.columns.as_slice(), ROW, &[])
                && table.key.is_none()
                && are_places(table.primary.as_slice(), POSITION)
                && is_unique_on(table, Some(POSITION))
                && refers_to(table.references.as_slice(), 1, Some(parent))
        }
    }
}

// Whether the table is as wanted.
fn is_table(table: &Table, wanted: &Wanted) -> bool
    ensures { IsTrue result ↔ (table.now ≡ table_of wanted.now) }
{
    is_alike(table, wanted)
}

// Whether the tables are the first ones and then the later ones, in this order.
fn are_tables(tables: &[Table], first: &[Wanted], later: &[Wanted]) -> bool
    ensures { IsTrue result ↔ (tables.now ≡ tables_then first.now (tables_then later.now [])) }
{
    if let [one, others @ ..] = first {
        let [table, rest @ ..] = tables else {
            return false;
        };
        return is_table(table, one) && are_tables(rest, others, later);
    }
    if later.is_empty() {
        return tables.is_empty();
    }
    are_tables(tables, later, &[])
}

// Whether this is the index.
fn is_index(index: &Index, wanted: &(&str, u32, u32, &[usize])) -> bool
    ensures { IsTrue result ↔ (index.now ≡ index_of wanted.now) }
{
    is_named(&index.name, wanted.0)
        && index.tree == wanted.1
        && index.table == wanted.2
        && are_places(index.columns.as_slice(), wanted.3)
        && is_plain(index.order)
        && index.is_unique
}

// Whether these are the indexes, in this order.
fn are_indexes(indexes: &[Index], wanted: &[(&str, u32, u32, &[usize])]) -> bool
    ensures { IsTrue result ↔ (indexes.now ≡ indexes_of wanted.now) }
{
    let [one, others @ ..] = wanted else {
        return indexes.is_empty();
    };
    let [index, rest @ ..] = indexes else {
        return false;
    };
    is_index(index, one) && are_indexes(rest, others)
}

// Whether the schema has just these tables and indexes, and no view.
fn is_shape(
    schema: &Schema,
    first: &[Wanted],
    later: &[Wanted],
    indexes: &[(&str, u32, u32, &[usize])],
) -> bool
    ensures { IsTrue result ↔ (schema.now ≡ catalog_of first.now later.now indexes.now) }
{
    schema.views.is_empty()
        && are_tables(schema.tables.as_slice(), first, later)
        && are_indexes(schema.indexes.as_slice(), indexes)
}

/// Whether a database has just the tables of schema 2, as the office makes them.
pub(crate) fn is_ours(schema: &Schema) -> bool
    ensures { IsTrue result ↔ (schema.now ≡ office_schema) }
{
    is_shape(schema, &FIRST, &LATER, &INDEXES)
}

/// Whether a database has just the tables of schema 1, as they were made.
pub(crate) fn is_first(schema: &Schema) -> bool
    ensures { IsTrue result ↔ (schema.now ≡ first_schema) }
{
    is_shape(schema, &FIRST, &[], &INDEXES)
}

/// Whether there is no table, no index and no view.
pub(crate) fn is_blank(schema: &Schema) -> bool
    ensures { IsTrue result ↔ (schema.now ≡ no_schema) }
{
    schema.tables.is_empty() && schema.indexes.is_empty() && schema.views.is_empty()
}
