//! Monitoring of a node: its counters with their text in the Prometheus exposition format (version 0.0.4), and its
//! responses about its metrics and its health. A request adds to the counters, and gets a line in the access log, in
//! which each text of a client is escaped.
#![tactic(auto)]

mod client;
mod counter;
mod counters;
mod exchange;
mod histogram;
mod laws;
mod line_log;
mod log_entry;
mod log_escape;
mod log_fragment;
mod log_line;
mod log_time;
mod metrics;
mod metrics_table;
mod metrics_text;
mod metrics_values;
mod report;
mod report_response;
mod report_text;
mod request_kind;
mod request_line;
mod shown_line;
mod shown_path;
mod starting;

pub use client::{client_addr, last_element};
pub use counter::Counter;
pub use exchange::{put_exchange, record_exchange};
pub use histogram::{BOUNDS, Timing};
pub use laws::{
    counters_are_named, counters_never_fall, escaped_is_visible, escaped_reads_back,
    families_are_apart, gauges_are_named, histogram_is_cumulative, line_splits, lines_are_plain,
    metrics_read_back, requests_are_named, times_are_named,
};
pub use line_log::{DroppedLines, LineLog};
pub use log_entry::{LogEntry, put_line};
pub use log_line::{LogPolicy, LoggedExchange};
pub use metrics::{Metrics, SiteName};
pub use metrics_text::{Gauges, ReleaseTime, put_metrics};
pub use report::{Report, ReportRequest, gets_report};
pub use report_response::respond_about_node;
pub use report_text::{ReportKind, ReportResponse};
pub use request_kind::{StatusClass, Target};
pub use request_line::{RequestLine, first_line, without_query_part};
pub use starting::respond_at_start;
