//! The release of a feed whose file is read ahead.
ghost use Rattle.std.specs.Prelude.{◌≡◌, ◌<◌, List, None, IfSome, length};
ghost use Rattle.feed_releases.specs.ReleaseValue.{ReleaseValue};
ghost use Rattle.feed_releases.specs.Ahead.{IsAhead, IsReadAt};

use crate::file_check::FileCheck;

/// The check of the release at a place of the list of releases.
#[derive(Drop)]
pub(crate) struct Ahead {
    pub(crate) at: usize,
    pub(crate) running: FileCheck,
}

impl Ahead {
    /// Returns this check of the release at a place.
    pub(crate) fn of(at: usize, running: Option<FileCheck>) -> Option<Ahead>
        ensures { (releases : List ReleaseValue) → at < length releases
            → IfSome running (IsReadAt releases at) → IsAhead releases result }
    {
        match running {
            Some(running) => Some(Ahead { at, running }),
            None => None,
        }
    }
}

/// Takes the check of the release at a place. Drops the check of any other release.
pub(crate) fn take_running(ahead: &mut Option<Ahead>, at: usize) -> Option<FileCheck>
    ensures none { ahead.new ≡ None }
    ensures reads { (releases : List ReleaseValue) → IsAhead releases ahead.old
        → IfSome result (IsReadAt releases at) }
{
    let Some(Ahead { at: place, running }) = ahead.take() else {
        return None;
    };
    if place == at { Some(running) } else { None }
}
