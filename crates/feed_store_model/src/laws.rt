//! A law of tables, stated as the contract of a function with an empty body.
ghost use Rattle.std.specs.Prelude.{◌≡◌, IsPermutation};
ghost use Rattle.sqlite.specs.Effect.{Database};
ghost use Rattle.feed_store_model.specs.Tables.{stored_content, HoldsRecords, IsLayout2};

/// The content of a database does not depend on the order in which its tables return their rows.
pub fn order_of_rows_is_free()
    ensures { (one other : Database) → IsLayout2 one → HoldsRecords one → IsPermutation (one.trees 1) (other.trees 1)
        → IsPermutation (one.trees 3) (other.trees 3) → IsPermutation (one.trees 5) (other.trees 5)
        → stored_content one ≡ stored_content other }
{}
