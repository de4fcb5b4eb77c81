//! Laws of connections, each stated as the contract of a function with an empty body.
ghost use Rattle.node_connection.specs.Requests.{RequestsAreUnique};
ghost use Rattle.node_connection.specs.States.{StateIsRight};
ghost use Rattle.node_connection.specs.Streams.{AllIsServed};

use crate::respond::Respond;

/// The first requests received have responses, and the bytes sent are the beginning of the responses, or all of them if
/// the last one was sent whole. A connection that waits for a request has answered each one that was received whole.
/// Past its time limit it waits for nothing.
pub fn state_is_right()
    ensures { StateIsRight }
{}

/// If each response is one to its request, the bytes sent are the beginning of the responses to the requests in the
/// bytes received, in their order.
pub fn all_is_served<R: Respond>(_responder: &R)
    ensures { AllIsServed (R.wanted _responder.now, R.responses _responder.now) }
{}

/// The bytes received contain no other requests.
pub fn requests_are_unique()
    ensures { RequestsAreUnique }
{}
