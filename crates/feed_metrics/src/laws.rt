//! The laws of the text format, each the contract of a function with an empty body.
ghost use Rattle.feed_metrics.specs.Laws.{LabelReadsBack, LinesReadBack};

/// A reader of the format reads the value of a label back, whatever it is, and no end of a line is in it.
pub fn label_reads_back()
    ensures { LabelReadsBack }
{}

/// A reader of the format reads lines back, if their names are names and their values are numbers.
pub fn lines_read_back()
    ensures { LinesReadBack }
{}
