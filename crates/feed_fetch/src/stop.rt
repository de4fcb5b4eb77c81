//! Why a request or a fetch stopped.
ghost use Rattle.std.specs.Prelude.{◌≡◌};
ghost use Rattle.feed_fetch.specs.Answers.{status_of};

use feed_dial::DialFault;
use feed_http_heads::HttpFault;
use feed_model::Refusal;

/// Why a request got no answer.
#[derive(Clone, Copy, Debug, PartialEq, Eq)]
pub enum RequestFault {
    /// There was no connection.
    Dial(DialFault),
    /// The exchange failed.
    Http(HttpFault),
}

/// Why a fetch stopped before the file was complete.
#[derive(Clone, Copy, Debug, PartialEq, Eq)]
pub enum Stop {
    /// A later release of the package is active.
    Older,
    /// The file is complete and bad.
    Broken,
    /// The feed refused an event.
    Refused(Refusal),
    /// The peer does not have the file.
    Missing,
    /// The peer's file has no byte of the range.
    Unsatisfied,
    /// A response had no new bytes.
    NoProgress,
    /// A request got no answer.
    Request(RequestFault),
    /// The output failed.
    Print,
}

impl Stop {
    /// Returns the exit status of a fetch that stopped so: 0 for a later release, 3 if memory ran out, or a device, a
    /// connection, a read, a write or a print failed, otherwise 1.
    pub fn status(&self) -> u8
        ensures { result ≡ status_of self.now }
    {
        match self {
            Stop::Older => 0,
            Stop::Broken | Stop::Missing | Stop::Unsatisfied | Stop::NoProgress => 1,
            Stop::Refused(Refusal::Memory | Refusal::Device) => 3,
            Stop::Refused(_) => 1,
            Stop::Request(RequestFault::Dial(_)) => 3,
            Stop::Request(RequestFault::Http(fault)) => match fault {
                HttpFault::Read | HttpFault::Write | HttpFault::Short | HttpFault::Memory => 3,
                _ => 1,
            },
            Stop::Print => 3,
        }
    }
}
