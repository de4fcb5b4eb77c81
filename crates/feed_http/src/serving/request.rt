//! Interprets a request on the server: its method, range and target.
ghost use Rattle.std.specs.Prelude.{◌≡◌, IfOk, IsOkUnless, option_copied};
ghost use Rattle.httparse.specs.Grammar.{RequestHead};
ghost use Rattle.feed_range.specs.RangeAsk.{IsInside};
ghost use Rattle.feed_http_heads.specs.Fields.{AreWithin, AreFieldsOf};
ghost use Rattle.feed_http_heads.specs.Requests.{IsInBuffer, HasHead};
ghost use Rattle.feed_http.specs.Requests.{is_unsupported, range_value, ask_for, IsNamedBy};

use feed_http_heads::{Fields, HttpFault, Request, origin_form};
use feed_names::{NameFault, ReleaseName};
use feed_range::RangeAsk;
use std::alloc::Global;

/// Returns whether the method is neither GET nor HEAD, or a coded body follows.
pub(crate) fn is_unsupported(request: &Request<'_>) -> bool
    requires { IsInBuffer request.now }
    ensures { (head : RequestHead) → HasHead request.now head → result ≡ is_unsupported head }
{
    !(request.is_get() || request.is_head()) || request.fields().has_field(b"transfer-encoding")
}

fn range_value<'b>(fields: &Fields<'b>) -> Option<&'b [u8]>
    requires { AreWithin fields.now }
    ensures { (head : RequestHead) → AreFieldsOf fields.now head.fields
        → option_copied result ≡ range_value head }
{
    if fields.has_field(b"if-range") {
        return None;
    }
    fields.sole_value(b"range")
}

/// Returns the part of a file of this length that the request asks for (RFC 9110, section 14.2).
pub(crate) fn ask(request: &Request<'_>, length: u64) -> RangeAsk
    requires { IsInBuffer request.now }
    ensures value { (head : RequestHead) → HasHead request.now head
        → result ≡ ask_for head length }
    ensures inside { IsInside length result }
{
    match range_value(&request.fields()) {
        Some(value) => RangeAsk::read(value, length),
        None => RangeAsk::Whole,
    }
}

/// Returns the release that the target names, if any.
pub(crate) fn name(alloc: Global, request: &Request<'_>) -> Result<Option<ReleaseName>, HttpFault>
    requires { IsInBuffer request.now }
    ensures named { IfOk result (λ named. (head : RequestHead) → HasHead request.now head
        → IsNamedBy head.target named) }
    ensures faults { IsOkUnless result HttpFault.Memory }
{
    name_in(alloc, request.target())
}

fn name_in(alloc: Global, target: &[u8]) -> Result<Option<ReleaseName>, HttpFault>
    ensures named { IfOk result (IsNamedBy target.now) }
    ensures faults { IsOkUnless result HttpFault.Memory }
{
    let Some(text) = origin_form(target).strip_prefix(b"/".as_slice()) else {
        return Ok(None);
    };
    match ReleaseName::parse(alloc, text) {
        Ok(name) => Ok(Some(name)),
        Err(NameFault::Memory) => Err(HttpFault::Memory),
        Err(NameFault::BadEnding) => Ok(None),
        Err(NameFault::BadDate) => Ok(None),
        Err(NameFault::BadStem) => Ok(None),
    }
}
