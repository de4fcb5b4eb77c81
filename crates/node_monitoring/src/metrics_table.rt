//! The families of the metrics of a node: one row for each, with the rows of its samples. Nothing else names a family.
use crate::counter::Counter;
use crate::histogram::Timing;
use feed_metrics::FamilyRow;

/// Where the value of a label is from.
#[derive(Clone, Copy)]
pub enum LabelSource {
    /// The row itself.
    Row,
    Version,
    Target,
    Class,
    Site,
    Bound,
    Package,
}

/// Where the value of a sample is from. Some sources have a sample for each of several places.
#[derive(Clone, Copy)]
pub enum SampleSource {
    Counted(Counter),
    One,
    Open,
    Held,
    /// The requests of each target and class.
    Requests,
    /// The requests of each site.
    Sites,
    /// The times within each bound.
    Buckets(Timing),
    /// How many times there are, and their sum.
    Times(Timing),
    TimesSum(Timing),
    /// The day of each active release, if these have series.
    Releases,
    /// The time since the last switch, if there was one.
    SinceSwitch,
}

// The source of a label or of samples.
macro_rules! label {
    ($name:literal $value:literal) => {
        ($name, $value, crate::metrics_table::LabelSource::Row)
    };
    ($name:literal $source:ident) => {
        ($name, "", crate::metrics_table::LabelSource::$source)
    };
}

macro_rules! source {
    (($counter:ident)) => {
        crate::metrics_table::SampleSource::Counted(crate::counter::Counter::$counter)
    };
    (($source:ident $timing:ident)) => {
        crate::metrics_table::SampleSource::$source(crate::histogram::Timing::$timing)
    };
    ($source:ident) => {
        crate::metrics_table::SampleSource::$source
    };
}

// The families. Brackets enclose a label: its name, and its value or where that is from. Behind the labels is where the
// values are from; parentheses enclose a
// counter, or a source of times with what took them.
macro_rules! families {
    ($($shown:ident $kind:ident $name:literal $help:literal {
        $($suffix:literal $([$label:literal $($value:tt)+])* = $source:tt)*
    })*) => {
        &[$((
            $name,
            $help,
            feed_metrics::FamilyKind::$kind,
            feed_metrics::Shown::$shown,
            &[$(($suffix, &[$(label!($label $($value)+)),*], source!($source))),*],
        )),*]
    };
}

/// The families, in the order in which they are written.
pub(crate) const FAMILIES: &[FamilyRow<LabelSource, SampleSource>] = families! {
    Always Gauge "kbfeed_build_info" "The version of the program." {
        "" ["version" Version] = One
    }
    Always Gauge "kbfeed_connections_open" "Connections that are open." {
        "" = Open
    }
    Always Gauge "kbfeed_held_bytes" "Bytes allocated for replies that are not yet sent whole." {
        "" = Held
    }
    Always Counter "kbfeed_connections_opened_total" "Connections accepted." {
        "" = (Opened)
    }
    Always Counter "kbfeed_connections_closed_total" "Connections closed, by cause." {
        "" ["cause" "complete"] = (Complete)
        "" ["cause" "peer"] = (PeerClosed)
        "" ["cause" "timeout"] = (TimedOut)
        "" ["cause" "evicted"] = (Evicted)
        "" ["cause" "unread"] = (Unread)
        "" ["cause" "streamed"] = (Streamed)
    }
    Always Counter "kbfeed_request_bytes_total" "Bytes of the requests that were replied to." {
        "" = (RequestBytes)
    }
    Always Counter "kbfeed_reply_bytes_total" "Bytes of replies that were sent, heads included." {
        "" = (ReplyBytes)
    }
    Always Counter "kbfeed_fetches_total" "Fetches of releases that ended, by outcome." {
        "" ["outcome" "activated"] = (FetchActivated)
        "" ["outcome" "known"] = (FetchKnown)
        "" ["outcome" "older"] = (FetchOlder)
        "" ["outcome" "broken"] = (FetchBroken)
        "" ["outcome" "missing"] = (FetchMissing)
        "" ["outcome" "refused"] = (FetchRefused)
        "" ["outcome" "held"] = (FetchHeld)
        "" ["outcome" "network"] = (FetchNetwork)
    }
    Always Counter "kbfeed_refused_tokens_total" "Requests without the token that they need." {
        "" = (RefusedToken)
    }
    Always Counter "kbfeed_log_lines_dropped_total" "Lines of the log that were not written." {
        "" = (DroppedLine)
    }
    Always Counter "kbfeed_requests_total" "Requests that were replied to, by target and class of status." {
        "" ["target" Target] ["class" Class] = Requests
    }
    IfAny Counter "kbfeed_requests_by_site_total" "Requests that a site replied to, by the name of its file." {
        "" ["site" Site] = Sites
    }
    Always Histogram "kbfeed_request_duration_seconds" "Time from the head of a request to the end of its reply." {
        "_bucket" ["le" Bound] = (Buckets Request)
        "_bucket" ["le" "+Inf"] = (Times Request)
        "_sum" = (TimesSum Request)
        "_count" = (Times Request)
    }
    Always Histogram "kbfeed_turn_duration_seconds" "Time of a turn, in which the node serves all that are ready." {
        "_bucket" ["le" Bound] = (Buckets Turn)
        "_bucket" ["le" "+Inf"] = (Times Turn)
        "_sum" = (TimesSum Turn)
        "_count" = (Times Turn)
    }
    Always Histogram "kbfeed_commit_duration_seconds" "Time of a step in which the node stores what it fetches." {
        "_bucket" ["le" Bound] = (Buckets Commit)
        "_bucket" ["le" "+Inf"] = (Times Commit)
        "_sum" = (TimesSum Commit)
        "_count" = (Times Commit)
    }
    Always Gauge "kbfeed_active_release_timestamp_seconds" "Day of the active release of each package; \
        of more than 256 only with --metrics-packages." {
        "" ["package" Package] = Releases
    }
    IfAny Gauge "kbfeed_since_switch_seconds" "Time since the last switch to a release." {
        "" = SinceSwitch
    }
};
