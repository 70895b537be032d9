//! What a table stores.
ghost use Rattle.std.specs.Prelude.{◌≡◌, IfOk};
ghost use Rattle.sqlite.specs.Order.{Row as Cells};

use sqlite::{Error, Row};

/// A table, by what it stores: its rows are items of one type, and the values of a row are those of one item.
pub trait Table {
    type Item: Drop;

    // what a query shows of an item, and what a statement is given for it
    ghost values: { Self.Item → Cells };

    /// The item in a row.
    fn read(row: &Row) -> Result<Self::Item, Error>
        ensures { IfOk result (λ item. row.now ≡ values item) };

    ghost single: { (a b : Self.Item) → values a ≡ values b → a ≡ b };
}
