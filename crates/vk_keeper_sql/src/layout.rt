//! Whether the tables of a store are a keeper's, by their names, columns, types and keys.

ghost use Rattle.std.specs.Prelude.{◌≡◌, ◌↔◌, false, [], ◌∷◌, map, IsTrue};
ghost use Rattle.vk_keeper_sql.specs.Layouts.{AreFirst, Has, HasLayout, HasShape, IsPlain, terms_shape, shape_named, shape_of};

use sqlite_schema::schema::{Column, Kind, Schema, Table};

/// Which tables a store has.
#[derive(Clone, Copy)]
pub enum Layout {
    /// None at all.
    Blank,
    /// Those of the number 1.
    First,
    /// Those of the number 2, which has terms beside.
    Second,
    /// None of these.
    Other,
}

/// A table of a keeper.
#[derive(Clone, Copy)]
pub enum TableName {
    About,
    Auction,
    Seal,
    Terms,
}

/// Which tables are there. Indexes and views of others count as other tables.
pub fn layout_of(schema: &Schema) -> Layout
    ensures { HasLayout result schema.now }
{
    let tables = schema.tables.as_slice();
    if !schema.views.is_empty() {
        return Layout::Other;
    }
    match (tables.len(), schema.indexes.len()) {
        (0, _) => Layout::Blank,
        (3, 3) if are_first(tables) => Layout::First,
        (4, 4) if are_second(tables) => Layout::Second,
        _ => Layout::Other,
    }
}

/// Whether the tables of the number 1 are there.
fn are_first(tables: &[Table]) -> bool
    ensures { IsTrue result ↔ AreFirst tables.now }
{
    has(tables, TableName::About) && has(tables, TableName::Auction) && has(tables, TableName::Seal)
}

/// Whether those of the number 2 are.
fn are_second(tables: &[Table]) -> bool
    ensures { IsTrue result ↔ AreFirst tables.now × Has terms_shape tables.now }
{
    are_first(tables) && has(tables, TableName::Terms)
}

/// Whether a keeper's table of that name is among these.
fn has(tables: &[Table], name: TableName) -> bool
    ensures { IsTrue result ↔ Has (shape_named name) tables.now }
{
    for table in tables {
        if is_table(table, name) {
            return true;
        }
    }
    false
}

/// Whether this is the keeper's table of that name.
fn is_table(table: &Table, name: TableName) -> bool
    ensures { IsTrue result ↔ HasShape (shape_named name) table.now }
{
    match name {
        TableName::About => {
            let columns = [("version", Kind::Integer, true)];
            has_columns(table, "about", &columns) && table.uniques.is_empty()
        }
        TableName::Auction => {
            let columns = [
                ("id", Kind::Any, true),
                ("width", Kind::Integer, true),
                ("lanes", Kind::Integer, true),
                ("phase", Kind::Integer, true),
                ("seed", Kind::Any, false),
                ("bits", Kind::Text, false),
            ];
            has_columns(table, "auction", &columns) && is_by_id(table)
        }
        TableName::Seal => {
            let columns = [
                ("id", Kind::Any, true),
                ("position", Kind::Integer, true),
                ("seat", Kind::Integer, true),
                ("seal", Kind::Text, true),
                ("secret", Kind::Text, true),
            ];
            has_columns(table, "seal", &columns) && is_by_place(table)
        }
        TableName::Terms => {
            let columns = [
                ("id", Kind::Any, true),
                ("version", Kind::Integer, true),
                ("reserve", Kind::Integer, true),
            ];
            has_columns(table, "terms", &columns) && is_by_id(table)
        }
    }
}

/// Whether the table has that name and these columns, and no rule but them and its keys.
fn has_columns(table: &Table, name: &str, columns: &[(&str, Kind, bool)]) -> bool
    ensures { IsTrue result ↔ IsPlain name.now table.now × (map shape_of table.now.columns
        ≡ map (λ w. record { name = w.0.now; kind = w.1; not_null = w.2; is_strict = false })
        columns.now) }
{
    is_plain(table, name) && are_columns(table.columns.as_slice(), columns)
}

/// Whether the table has that name, and no rule but its columns and keys.
fn is_plain(table: &Table, name: &str) -> bool
    ensures { IsTrue result ↔ IsPlain name.now table.now }
{
    if table.name.as_slice() != name.as_bytes() {
        return false;
    }
    if table.key.is_some() {
        return false;
    }
    table.checks.roots.is_empty() && table.references.is_empty()
}

/// Whether the one key is the first column.
fn is_by_id(table: &Table) -> bool
    ensures { IsTrue result ↔ table.now.uniques ≡ (1 ∷ []) ∷ [] }
{
    match table.uniques.as_slice() {
        [id] => are(id.as_slice(), &[1]),
        _ => false,
    }
}

/// Whether the keys are the first column with the second, and with the third.
fn is_by_place(table: &Table) -> bool
    ensures { IsTrue result ↔ table.now.uniques ≡ (1 ∷ 2 ∷ []) ∷ (1 ∷ 3 ∷ []) ∷ [] }
{
    match table.uniques.as_slice() {
        [position, seat] => are(position.as_slice(), &[1, 2]) && are(seat.as_slice(), &[1, 3]),
        _ => false,
    }
}

/// Whether these are the places.
fn are(places: &[usize], wanted: &[usize]) -> bool
    ensures { IsTrue result ↔ places.now ≡ wanted.now }
{
    places == wanted
}

/// Whether these are the columns, each by its name and type, and whether it takes no NULL.
fn are_columns(columns: &[Column], wanted: &[(&str, Kind, bool)]) -> bool
    ensures { IsTrue result ↔ map shape_of columns.now
        ≡ map (λ w. record { name = w.0.now; kind = w.1; not_null = w.2; is_strict = false })
        wanted.now }
{
    if columns.len() != wanted.len() {
        return false;
    }
    for (i, column) in columns.iter().enumerate() {
        if !is_column(column, &wanted[i]) {
            return false;
        }
    }
    true
}

fn is_column(column: &Column, wanted: &(&str, Kind, bool)) -> bool
    ensures { IsTrue result ↔ shape_of column.now
        ≡ record {
          name = wanted.now.0.now;
          kind = wanted.now.1;
          not_null = wanted.now.2;
          is_strict = false;
        } }
{
    let (name, kind, not_null) = wanted;
    column.name.as_slice() == name.as_bytes()
        && column.kind == *kind
        && column.not_null == *not_null
        && !column.is_strict
}
