//! Laws of files, each stated as the contract of a function with an empty body.
ghost use Rattle.std.specs.Prelude.{◌≡◌, ◌++◌, ℕ, List, []};
ghost use Rattle.feed_kbart.specs.Files.{bad_of};
ghost use Rattle.feed_kbart.specs.Identifiers.{AreOfKind};
ghost use Rattle.feed_kbart.specs.RowCells.{AreCellsOf, content_of};
ghost use Rattle.feed_kbart.specs.RowValue.{RowValue, content};
ghost use Rattle.feed_kbart.specs.Rows.{row_of};
ghost use Rattle.feed_kbart.specs.Windows.{IsCut};
ghost use Rattle.feed_kbart.specs.declared.fault.BadFile.TheVariants.{NoHeader};
ghost use Rattle.feed_kbart.specs.declared.header.Columns.{Columns};
ghost use Rattle.feed_kbart.specs.declared.row_cells.RowCells.{RowCells};
ghost use Rattle.feed_text.specs.Records.{records_of};

/// A file without bytes has no header.
pub fn empty_file_is_bad()
    ensures { bad_of [] ≡ Some NoHeader }
{}

/// The records of a file that is cut before a line end are those of both parts, one after the other.
pub fn records_are_of_both_parts()
    ensures { (front back : List ℕ) → IsCut front back
        → records_of (front ++ back) ≡ records_of front ++ records_of back }
{}

/// The getters of a row return what its cells say.
pub fn cells_are_getters()
    ensures { (row : RowValue) (cells : RowCells) → content_of cells ≡ content row → AreCellsOf row cells }
{}

/// Each identifier of a row is of its kind: a serial has no ISBN, and a book no ISSN.
pub fn identifiers_are_of_their_kind()
    ensures { (columns : Columns) (number : ℕ) (fields : List (List ℕ))
        → AreOfKind (row_of columns number fields).identifiers }
{}
