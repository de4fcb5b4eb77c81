//! A law of the lines of the log, stated as the contract of a function with an empty body.
ghost use Rattle.node_monitoring.specs.ShownLines.{LinesArePlain};
ghost use Rattle.node_monitoring.specs.LogLaws.{EscapedIsVisible, EscapedReadsBack, LineSplits};
ghost use Rattle.node_monitoring.specs.Laws.{CountersNeverFall, HistogramIsCumulative, MetricsReadBack};
ghost use Rattle.node_monitoring.specs.Series.{CountersAreNamed, FamiliesAreApart, GaugesAreNamed, RequestsAreNamed};
ghost use Rattle.node_monitoring.specs.Series.{TimesAreNamed};

/// In a log without queries each request line is a dash, or a method that RFC 9110 names, a path of a node and a
/// version, whatever bytes a client sent. A dash is in place of another method or path.
pub fn lines_are_plain()
    ensures { LinesArePlain }
{}

/// An escaped text has visible ASCII and spaces alone, and no quote: no control byte and no end of a line.
pub fn escaped_is_visible()
    ensures { EscapedIsVisible }
{}

/// Decoding an escaped text returns the text.
pub fn escaped_reads_back()
    ensures { EscapedReadsBack }
{}

/// A line that is split at its quotes has seven parts. The second is the escaped request line, the fourth the referrer
/// and the sixth the user agent.
pub fn line_splits()
    ensures { LineSplits }
{}

/// A counter never falls, whatever is added to the counters.
pub fn counters_never_fall()
    ensures { CountersNeverFall }
{}

/// A bucket has all that a bucket with a lower bound has, and the last one, which has no bound, has the count.
pub fn histogram_is_cumulative()
    ensures { HistogramIsCumulative }
{}

/// A reader of the exposition format reads from the metrics the help and the type of each family and then its samples,
/// each with its name, its labels and its value, and nothing else.
pub fn metrics_read_back()
    ensures { MetricsReadBack }
{}

/// Each counter has exactly one sample of the name and the labels by which operators know it, with its value.
pub fn counters_are_named()
    ensures { CountersAreNamed }
{}

/// So have the requests of each target with a status of each class.
pub fn requests_are_named()
    ensures { RequestsAreNamed }
{}

/// So have the open connections and the bytes held.
pub fn gauges_are_named()
    ensures { GaugesAreNamed }
{}

/// So have the count and the sum of the times of requests, of turns and of commits.
pub fn times_are_named()
    ensures { TimesAreNamed }
{}

/// Each family is there once. The names of counters end in `_total`, and those of no other family do.
pub fn families_are_apart()
    ensures { FamiliesAreApart }
{}
