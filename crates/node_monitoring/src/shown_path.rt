//! The paths that a node answers, as the log of a node shows them.
ghost use Rattle.std.specs.Prelude.{◌≡◌};
ghost use Rattle.std.specs.List.{list_all};
ghost use Rattle.feed_names.specs.ReleaseName.{is_package_byte};
ghost use Rattle.node_monitoring.specs.ShownPaths.{is_dated, is_package, is_release, is_shown};
ghost use Rattle.node_monitoring.specs.ShownPaths.{is_tail, names_release};

use feed_dates::read_date;
use node_request::{Route, package_in};

fn is_package_byte(byte: u8) -> bool
    ensures { result ≡ is_package_byte byte }
{
    byte.is_ascii_alphanumeric() || byte == b'-' || byte == b'_' || byte == b'.'
}

fn has_package_bytes(text: &[u8]) -> bool
    ensures { result ≡ list_all is_package_byte text.now }
{
    text.iter().all(|byte| is_package_byte(*byte))
}

// Returns whether a text is the key of a package.
fn is_package(text: &[u8]) -> bool
    ensures { result ≡ is_package text.now }
{
    let front = &text[..text.len().min(1)];
    !text.is_empty() && text.len() <= 100 && front != b".".as_slice() && has_package_bytes(text)
}

fn is_dated(text: &[u8]) -> bool
    ensures { result ≡ is_dated text.now }
{
    read_date(text).is_some()
}

// Returns whether a text is `_`, a date and `.txt`.
fn is_tail(text: &[u8]) -> bool
    ensures { result ≡ is_tail text.now }
{
    let mark = &text[..text.len().min(1)];
    let rest = &text[text.len().min(1)..];
    let date = &rest[..rest.len().min(10)];
    let ending = &rest[rest.len().min(10)..];
    mark == b"_".as_slice() && ending == b".txt".as_slice() && is_dated(date)
}

// Returns whether a text is the name of a release, as `ReleaseName::parse` does, without memory.
fn is_release(text: &[u8]) -> bool
    ensures { result ≡ is_release text.now }
{
    let at = text.len().saturating_sub(15);
    is_package(&text[..at]) && is_tail(&text[at..])
}

fn names_release(path: &[u8]) -> bool
    ensures { result ≡ names_release path.now }
{
    let front = &path[..path.len().min(6)];
    front == b"/feed/".as_slice() && is_release(&path[path.len().min(6)..])
}

/// Returns whether the log shows the path of a route. A package or a release in it has a valid name, whether the node
/// has it or not.
pub(crate) fn is_shown(route: Route, path: &[u8]) -> bool
    ensures { result ≡ is_shown route path.now }
{
    match route {
        Route::Package => is_package(package_in(path)),
        Route::Fetch => names_release(path),
        Route::Unknown => false,
        _ => true,
    }
}
