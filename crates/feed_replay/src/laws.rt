//! Laws of the texts of a script, each stated as the contract of a function with an empty body.
ghost use Rattle.feed_replay.specs.Laws.{EscapedReadsBack, NumberReadsBack};

/// Reading bytes that are written with escapes returns the bytes, whatever the case of the digits.
pub fn escaped_reads_back()
    ensures { EscapedReadsBack }
{}

/// Reading a number that is written in decimal returns the number.
pub fn number_reads_back()
    ensures { NumberReadsBack }
{}
