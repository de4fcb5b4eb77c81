//! Laws of the export, each stated as the contract of a function with an empty body.
ghost use Rattle.cmd_scholar.specs.Laws.{ExportIsBalanced, ExportIsWritten, ExportReadsBack};
ghost use Rattle.cmd_scholar.specs.Laws.{ItemHasRow, SpansAreCounted};

/// The beginning, the items of rows and the end, written one after another, are the export of the rows.
pub fn export_is_written()
    ensures { ExportIsWritten }
{}

/// A reader of XML gets the tags and the characters of the holdings back from the text after the declaration. So no
/// `<`, `>` or `&` of a title or of another text is read as markup.
pub fn export_reads_back()
    ensures { ExportReadsBack }
{}

/// Each end tag of the export closes the innermost element that is open, and none is open at the end.
pub fn export_is_balanced()
    ensures { ExportIsBalanced }
{}

/// A reader finds in an item the title of its row, once, and each ISSN of the row.
pub fn item_has_row()
    ensures { ItemHasRow }
{}

/// Whatever day today is, each day of a span is among the most recent ones that an item counts for it. So no link is
/// shown before an embargo of type P ends, nor missing while one of type R has days open.
pub fn spans_are_counted()
    ensures { SpansAreCounted }
{}
