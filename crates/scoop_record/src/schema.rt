//! Whether the schema of a database has the tables of a record, or room for them.

ghost use Rattle.std.specs.Prelude.{◌≡◌, ◌↔◌, ◌∷◌, ◌+◌, ◌^◌, ◌<◌, ◌≤◌, ◌==◌, ◌||◌, nat_lt, [], IsTrue, true, false, not, codes, is_some, Some};
ghost use Rattle.std.specs.List.{list_any, list_all};
ghost use Rattle.sqlite.specs.declared.types.Value.TheVariants.{Null};
ghost use Rattle.sqlite.specs.Collation.TheVariants.{Binary};
ghost use Rattle.sqlite.specs.Rows.{sequence};
ghost use Rattle.sqlite.specs.Does.{lacks_sequence};
ghost use Rattle.sqlite_schema.specs.Names.{same_name};
ghost use Rattle.sqlite_catalog.specs.Change.{next_tree};
ghost use Rattle.scoop_record.specs.Tables.{column_of, keyed_table};
ghost use Rattle.scoop_record.specs.Among.{IsFree, HasTable, HasFirstTables, HasRecordTables, HasRoom, tree_of, are_indexes_below, is_unnamed, record_names};

use sqlite::types::Value;
use sqlite_catalog::layout;
use sqlite_schema::names::same_name;
use sqlite_schema::schema::{Column, Index, Kind, Schema, Table};
use sqlite_value::keys::Collation;

/// Each tree is below this one.
const MAX_TREES: u64 = 1 << 31;

fn is_kind(kind: Kind, wanted: Kind) -> bool
    ensures { IsTrue result → kind ≡ wanted }
{
    matches!(
        (kind, wanted),
        (Kind::Integer, Kind::Integer) | (Kind::Blob, Kind::Blob)
    )
}

fn is_column(column: &Column, name: &[u8], kind: Kind, not_null: bool) -> bool
    ensures { IsTrue result → column.now ≡ column_of name.now kind not_null }
{
    column.name.as_slice() == name
        && is_kind(column.kind, kind)
        && column.is_strict
        && column.not_null == not_null
        && matches!(column.default, Value::Null)
        && matches!(column.collation, Collation::Binary)
}

fn has_no_rule(table: &Table) -> bool
    ensures { IsTrue result → (table.now.uniques ≡ []) × (table.now.orders ≡ []) × (table.now.checks ≡ []) × (table.now.references ≡ []) }
{
    table.uniques.as_slice().is_empty()
        && table.orders.as_slice().is_empty()
        && table.checks.roots.as_slice().is_empty()
        && table.references.as_slice().is_empty()
}

fn computes_nothing(table: &Table) -> bool
    ensures { IsTrue result → (table.now.computed ≡ []) × (table.now.stamps ≡ record { places = []; terms = []; formats = [] })
        × (table.now.is_counted ≡ false) }
{
    table.computed.as_slice().is_empty()
        && table.stamps.places.as_slice().is_empty()
        && table.stamps.terms.roots.as_slice().is_empty()
        && table.stamps.formats.as_slice().is_empty()
        && !table.is_counted
}

fn has_columns(table: &Table, key: &[u8], column: &[u8], kind: Kind) -> bool
    ensures { IsTrue result → (table.now.columns ≡ column_of key.now Kind.Integer false ∷ column_of column.now kind true ∷ []) × (table.now.key ≡ Some 0)
        × (table.now.primary ≡ 0 ∷ []) }
{
    let [first, second] = table.columns.as_slice() else {
        return false;
    };
    let [place] = table.primary.as_slice() else {
        return false;
    };
    is_column(first, key, Kind::Integer, false)
        && is_column(second, column, kind, true)
        && matches!(table.key, Some(0))
        && *place == 0
}

fn is_table(table: &Table, name: &[u8], key: &[u8], column: &[u8], kind: Kind) -> bool
    ensures { IsTrue result → table.now ≡ keyed_table name.now table.now.tree key.now column.now kind }
{
    table.name.as_slice() == name
        && has_columns(table, key, column, kind)
        && has_no_rule(table)
        && computes_nothing(table)
}

fn refers_elsewhere(child: &Table, name: &[u8]) -> bool
    ensures { result ≡ list_all (λ ref. not (same_name name.now ref.parent)) child.now.references }
{
    child
        .references
        .as_slice()
        .iter()
        .all(|key| !same_name(name, key.parent.as_slice()))
}

fn is_unnamed(schema: &Schema, name: &[u8]) -> bool
    ensures { result ≡ is_unnamed schema.now name.now }
{
    schema
        .tables
        .as_slice()
        .iter()
        .all(|child| refers_elsewhere(child, name))
}

fn is_free(schema: &Schema, name: &[u8]) -> bool
    ensures { IsTrue result ↔ IsFree schema.now name.now }
{
    schema.table_named(name).is_none()
        && schema.index_named(name).is_none()
        && schema.view_named(name).is_none()
}

fn is_indexed(indexes: &[Index], tree: u32) -> bool
    ensures { result ≡ list_any (λ index. index.table == tree) indexes.now }
{
    indexes.iter().any(|index| index.table == tree)
}

/// Whether only tables of this name have this tree.
fn owns_tree(tables: &[Table], name: &[u8], tree: u32) -> bool
    ensures { result ≡ list_all (λ table. not (table.tree == tree) || same_name table.name name.now) tables.now }
{
    tables
        .iter()
        .all(|table| table.tree != tree || table.is_named(name))
}

/// Whether the tree is that of tables of this name alone, with no index, and no foreign key has the name.
fn is_alone(schema: &Schema, name: &[u8], tree: u32) -> bool
    ensures { IsTrue result → (tree < 2 ^ 31) × (list_all (λ table. not (table.tree == tree) || same_name table.name name.now) schema.now.tables ≡ true)
        × (list_any (λ index. index.table == tree) schema.now.indexes ≡ false) × (is_unnamed schema.now name.now ≡ true) }
{
    u64::from(tree) < MAX_TREES
        && owns_tree(schema.tables.as_slice(), name, tree)
        && !is_indexed(schema.indexes.as_slice(), tree)
        && is_unnamed(schema, name)
}

/// Whether the table of this name has this key and column and nothing else, no index, and no foreign key that names it.
fn has_table(schema: &Schema, name: &[u8], key: &[u8], column: &[u8], kind: Kind) -> bool
    ensures { IsTrue result → HasTable schema.now (keyed_table name.now (tree_of schema.now name.now) key.now column.now kind) }
{
    let Some(at) = schema.table_named(name) else {
        return false;
    };
    let Some(table) = schema.tables.get(at) else {
        return false;
    };
    is_table(table, name, key, column, kind) && is_alone(schema, name, table.tree)
}

#[tactic(auto, unfolding(crate::specs::Among::meta_tree, crate::specs::Among::handlers_tree, crate::specs::Among::clients_tree))]
fn has_first_tables(schema: &Schema) -> bool
    ensures { IsTrue result → HasFirstTables schema.now }
{
    has_table(schema, b"meta", b"id", b"version", Kind::Integer)
        && has_table(schema, b"handlers", b"h", b"image", Kind::Blob)
        && has_table(schema, b"clients", b"c", b"inc", Kind::Integer)
}

/// Whether the tables of version 1 are there, and the name of the table that version 2 adds is free.
pub(crate) fn is_first_schema(schema: &Schema) -> bool
    ensures { IsTrue result → HasFirstTables schema.now × IsFree schema.now (codes "pending") }
{
    has_first_tables(schema) && is_free(schema, b"pending")
}

/// Whether the tables of a record are there.
#[tactic(auto, unfolding(crate::specs::Among::pending_tree))]
pub(crate) fn is_record_schema(schema: &Schema) -> bool
    ensures { IsTrue result → HasRecordTables schema.now }
{
    has_first_tables(schema) && has_table(schema, b"pending", b"h", b"entries", Kind::Blob)
}

fn are_indexes_below(indexes: &[Index], tree: u64) -> bool
    ensures { result ≡ list_all (λ index. nat_lt index.table tree) indexes.now }
{
    indexes.iter().all(|index| u64::from(index.table) < tree)
}

fn any_counted(tables: &[Table]) -> bool
    ensures { result ≡ list_any (λ table. table.is_counted) tables.now }
{
    tables.iter().any(|table| table.is_counted)
}

fn has_sequence(schema: &Schema) -> bool
    ensures { result ≡ is_some (sequence schema.now) }
{
    match schema.table_named(b"sqlite_sequence") {
        Some(place) => schema.tables.get(place).is_some(),
        None => false,
    }
}

/// Whether this many tables can be made, whatever their names.
fn has_space(schema: &Schema, tables: u64) -> bool
    requires { tables ≤ 4 }
    ensures { IsTrue result
        ↔ (are_indexes_below schema.now ≡ true) × (lacks_sequence schema.now ≡ false) × (next_tree schema.now + tables ≤ 2 ^ 31) }
{
    let next = layout::next_tree(schema);
    next + tables <= MAX_TREES
        && are_indexes_below(schema.indexes.as_slice(), next)
        && (!any_counted(schema.tables.as_slice()) || has_sequence(schema))
}

/// Whether the name is free, and no foreign key has it.
fn is_open_to(schema: &Schema, name: &[u8]) -> bool
    ensures { IsTrue result ↔ (IsFree schema.now name.now × (is_unnamed schema.now name.now ≡ true)) }
{
    is_free(schema, name) && is_unnamed(schema, name)
}

/// Whether there is room for the table that version 2 adds.
pub(crate) fn has_room_for_pending(schema: &Schema) -> bool
    ensures { IsTrue result ↔ HasRoom schema.now (codes "pending" ∷ []) }
{
    has_space(schema, 1) && is_open_to(schema, b"pending")
}

/// Whether there is room for the tables of a record.
pub(crate) fn has_room(schema: &Schema) -> bool
    ensures { IsTrue result ↔ HasRoom schema.now record_names }
{
    has_space(schema, 4)
        && is_open_to(schema, b"meta")
        && is_open_to(schema, b"handlers")
        && is_open_to(schema, b"clients")
        && is_open_to(schema, b"pending")
}
