//! The labels of a request: its target and the class of its response's status.
ghost use Rattle.std.specs.Prelude.{◌≡◌, ◌<◌};
ghost use Rattle.node_monitoring.specs.Counts.{class_of, request_place};
ghost use Rattle.node_monitoring.specs.declared.request_kind.TheConstants.{REQUEST_COUNT};

/// The resource or the report that the target of a request names.
#[derive(Clone, Copy, Debug, PartialEq, Eq)]
pub enum Target {
    Home,
    Status,
    Resolve,
    Go,
    Titles,
    Feed,
    Metrics,
    Health,
    Other,
}

/// The class of a status (RFC 9110, section 15).
#[derive(Clone, Copy, Debug, PartialEq, Eq)]
pub enum StatusClass {
    Successful,
    Redirection,
    ClientError,
    ServerError,
}

/// The number of classes, and of the counters of targets and classes.
pub(crate) const CLASS_COUNT: usize = StatusClass::ServerError as usize + 1;

pub(crate) const REQUEST_COUNT: usize = (Target::Other as usize + 1) * CLASS_COUNT;

/// The label of each target, in their order.
pub(crate) const TARGETS: [&str; 9] = [
    "home", "status", "resolve", "go", "titles", "feed", "metrics", "health", "other",
];

/// The label of each class, in their order.
pub(crate) const CLASSES: [&str; 4] = ["2xx", "3xx", "4xx", "5xx"];

impl StatusClass {
    /// Returns the class of a status.
    pub fn of(status: u16) -> StatusClass
        ensures { result ≡ class_of status }
    {
        if status < 300 {
            StatusClass::Successful
        } else if status < 400 {
            StatusClass::Redirection
        } else if status < 500 {
            StatusClass::ClientError
        } else {
            StatusClass::ServerError
        }
    }
}

/// Returns the place of the counter of a target and a class.
pub(crate) fn request_place(target: Target, class: StatusClass) -> usize
    ensures value { result ≡ request_place target class }
    ensures below { result < REQUEST_COUNT }
{
    target as usize * CLASS_COUNT + class as usize
}
