//! The active releases of a node with the first seconds of their days.
ghost use Rattle.std.specs.Prelude.{◌≡◌, ◌++◌, ◌∷◌, [], IfOk, OnOk, map};
ghost use Rattle.node_state.specs.ReleaseTimes.{time_of, active_time, seconds_of};

use feed_releases::ActiveRelease;
use node_monitoring::ReleaseTime;
use std::alloc::{AllocError, Global};

// Returns the first second of a day, since 1970-01-01. It is 0 before that day.
fn seconds_of(day: i32) -> u64
    ensures { result ≡ seconds_of day }
{
    if day < 0 {
        return 0;
    }
    u64::from(day.unsigned_abs()) * 86_400
}

fn time_of<'a>(active: &ActiveRelease<'a>) -> ReleaseTime<'a>
    ensures { time_of result ≡ active_time active.now }
{
    ReleaseTime {
        package: active.name().package(),
        seconds: seconds_of(active.name().day()),
    }
}

fn add_time<'a>(
    times: &mut Vec<ReleaseTime<'a>>,
    active: &ActiveRelease<'a>,
) -> Result<(), AllocError>
    ensures { OnOk result (map time_of times.new.items
        ≡ map time_of times.old.items ++ active_time active.now ∷ []) }
{
    Ok(times.push(time_of(active))?)
}

/// Returns the package of each active release, and the first second of its day.
pub fn release_times<'a>(
    alloc: Global,
    actives: &[ActiveRelease<'a>],
) -> Result<Vec<ReleaseTime<'a>>, AllocError>
    ensures { IfOk result (λ times. map time_of times.items ≡ map active_time actives.now) }
{
    let mut times = Vec::new(alloc);
    for active in actives {
        add_time(&mut times, active)?;
    }
    Ok(times)
}
