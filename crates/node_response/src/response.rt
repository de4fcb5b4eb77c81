//! Responses, and their bytes.
ghost use Rattle.std.specs.Prelude.{◌≡◌, ◌<◌, ◌^◌, ◌++◌, IfOk, OnOk, length};
ghost use Rattle.httparse.specs.Grammar.{AllPass, is_uri_byte};
ghost use Rattle.node_response.specs.Responses.{response_head, response_body, response_with, redirect_to, response_of};
ghost use Rattle.node_response.specs.Responses.{status_code, status_line, status_field, type_text, is_bodiless};
ghost use Rattle.node_response.specs.Responses.{content_fields, tag_field, cache_field, policy_field};
ghost use Rattle.node_response.specs.Responses.{connection_field, last_fields, with_tag, not_modified, is_good};
ghost use Rattle.node_response.specs.Responses.{is_document, of_site, sent_body};
ghost use Rattle.node_response.specs.Messages.{IsLocation, IsMessageFor};

use crate::escape::put;
use crate::fragment::Fragment;
use crate::response_text::ResponseText;
use crate::status::{Status, code_and_reason, is_bodiless, status_code};
use crate::utf8::page_in_utf8;
use feed_bytes::put_all;
use node_request::Representation;
use std::alloc::{AllocError, Global};
use std::marker::Model;

// The fields of each head after what a cache needs.
const LAST_FIELDS: &[u8] =
    b"\r\nVary: Accept\r\nX-Content-Type-Options: nosniff\r\nReferrer-Policy: no-referrer";

// A page runs no script, has its own styles alone, and sends its form to its own site (Content Security Policy Level
// 3).
const PAGE_FIELDS: &[u8] =
    b"\r\nContent-Security-Policy: default-src 'none'; style-src 'unsafe-inline'; \
    form-action 'self'; base-uri 'none'";

// The same of a site that redirects browsers to a sole hit: browsers check `form-action` for each redirect of a form.
const REDIRECTING_FIELDS: &[u8] =
    b"\r\nContent-Security-Policy: default-src 'none'; style-src 'unsafe-inline'; \
    form-action 'self' http: https:; base-uri 'none'";

// The scripts of any site may read a text (Fetch standard, section 3.3.3).
const SHARED_FIELDS: &[u8] = b"\r\nAccess-Control-Allow-Origin: *";

// The scripts of any site may read a fragment, which is for their pages. It runs and sends nothing by itself.
const FRAGMENT_FIELDS: &[u8] =
    b"\r\nAccess-Control-Allow-Origin: *\r\nContent-Security-Policy: default-src 'none'; \
    form-action 'none'; base-uri 'none'";

// The methods that a script of another site may use.
const PREFLIGHT_FIELDS: &[u8] =
    b"\r\nAllow: GET, HEAD\r\nAccess-Control-Allow-Methods: GET, HEAD\r\n\
    Access-Control-Allow-Headers: If-None-Match\r\nAccess-Control-Max-Age: 86400";

const QUERY_PREFLIGHT_FIELDS: &[u8] =
    b"\r\nAllow: GET, HEAD, POST\r\nAccess-Control-Allow-Methods: GET, HEAD, POST\r\n\
    Access-Control-Allow-Headers: If-None-Match\r\nAccess-Control-Max-Age: 86400";

/// A response. Its location is empty unless its status is `Found`, and its entity tag is empty if it has none.
#[derive(Drop)]
pub struct Response {
    status: Status,
    location: Option<Vec<u8>>,
    representation: Representation,
    body: Vec<u8>,
    tag: Option<Vec<u8>>,
    /// For how many seconds a cache may use the response without asking again.
    max_age: u32,
    /// Whether it is a page of a site that redirects browsers to a sole hit.
    redirects: bool,
}

impl Model for Response {
    ghost use Rattle.std.specs.Prelude.{[]};
    ghost use Rattle.std.specs.Option.{option_map_or};
    ghost use Rattle.node_response.specs.Responses.{ResponseValue};

    ghost Value = { ResponseValue };

    ghost view = { λ r. record {
      status = r.status;
      location = option_map_or (λ l. l.items) r.location [];
      representation = r.representation;
      body = r.body.items;
      tag = option_map_or (λ t. t.items) r.tag [];
      max_age = r.max_age;
      redirects = r.redirects;
    } };
}

fn type_text(representation: Representation) -> &'static [u8]
    ensures { result.now ≡ type_text representation }
{
    match representation {
        Representation::Text => b"text/plain; charset=utf-8",
        Representation::Json => b"application/json",
        Representation::Html | Representation::Fragment => b"text/html; charset=utf-8",
        Representation::Sfx => b"application/xml; charset=utf-8",
    }
}

fn connection_field(keeps: bool) -> &'static [u8]
    ensures { result.now ≡ connection_field keeps }
{
    if keeps { b"" } else { b"\r\nConnection: close" }
}

fn policy_field(representation: Representation, redirects: bool) -> &'static [u8]
    ensures { result.now ≡ policy_field representation redirects }
{
    match representation {
        Representation::Text | Representation::Json | Representation::Sfx => SHARED_FIELDS,
        Representation::Html if redirects => REDIRECTING_FIELDS,
        Representation::Html => PAGE_FIELDS,
        Representation::Fragment => FRAGMENT_FIELDS,
    }
}

fn is_document(representation: Representation) -> bool
    ensures { result ≡ is_document representation }
{
    match representation {
        Representation::Text | Representation::Json => false,
        Representation::Html | Representation::Fragment | Representation::Sfx => true,
    }
}

// Returns the body that a site sends: a document is UTF-8.
fn sent_body(
    alloc: Global,
    representation: Representation,
    body: Vec<u8>,
) -> Result<Vec<u8>, AllocError>
    ensures { IfOk result (λ sent. sent.items ≡ sent_body representation body.items) }
{
    match representation {
        Representation::Text | Representation::Json => Ok(body),
        Representation::Html | Representation::Fragment | Representation::Sfx => {
            page_in_utf8(alloc, body)
        }
    }
}

fn length_of(body: &[u8]) -> u64
    ensures { result ≡ length body.now }
{
    body.len() as u64
}

fn put_status_line(out: &mut Vec<u8>, status: Status) -> Result<(), AllocError>
    ensures { OnOk result (out.new.items ≡ out.old.items ++ status_line status) }
{
    let (code, reason) = code_and_reason(status);
    put_all(
        out,
        &[
            Fragment::Plain(b"HTTP/1.1 "),
            Fragment::Number(u64::from(code)),
            Fragment::Plain(b" "),
            Fragment::Plain(reason),
        ],
    )
}

fn put_status_field(out: &mut Vec<u8>, status: Status, location: &[u8]) -> Result<(), AllocError>
    ensures { OnOk result (out.new.items ≡ out.old.items ++ status_field status location.now) }
{
    match status {
        Status::Listed | Status::GetOrDelete => {
            put_all(out, &[Fragment::Plain(b"\r\nAllow: GET, HEAD, DELETE")])
        }
        Status::Preflight => put_all(out, &[Fragment::Plain(PREFLIGHT_FIELDS)]),
        Status::QueryPreflight => put_all(out, &[Fragment::Plain(QUERY_PREFLIGHT_FIELDS)]),
        Status::Found => put_all(
            out,
            &[
                Fragment::Plain(b"\r\nLocation: "),
                Fragment::Plain(location),
            ],
        ),
        Status::MethodNotAllowed => put_all(out, &[Fragment::Plain(b"\r\nAllow: GET, HEAD")]),
        Status::PostOnly => put_all(out, &[Fragment::Plain(b"\r\nAllow: POST")]),
        Status::GetOrPost => put_all(out, &[Fragment::Plain(b"\r\nAllow: GET, HEAD, POST")]),
        Status::Unauthorized => put_all(out, &[Fragment::Plain(b"\r\nWWW-Authenticate: Bearer")]),
        _ => Ok(()),
    }
}

fn put_content(
    out: &mut Vec<u8>,
    status: Status,
    representation: Representation,
    size: u64,
) -> Result<(), AllocError>
    ensures { OnOk result (out.new.items
        ≡ out.old.items ++ content_fields (is_bodiless (status_code status)) representation size) }
{
    if is_bodiless(status) {
        return Ok(());
    }
    put_all(
        out,
        &[
            Fragment::Plain(b"\r\nContent-Type: "),
            Fragment::Plain(type_text(representation)),
            Fragment::Plain(b"\r\nContent-Length: "),
            Fragment::Number(size),
        ],
    )
}

fn put_tag(out: &mut Vec<u8>, tag: &[u8]) -> Result<(), AllocError>
    ensures { OnOk result (out.new.items ≡ out.old.items ++ tag_field tag.now) }
{
    if tag.is_empty() {
        return Ok(());
    }
    put_all(out, &[Fragment::Plain(b"\r\nETag: "), Fragment::Plain(tag)])
}

fn put_cache(out: &mut Vec<u8>, max_age: u64) -> Result<(), AllocError>
    ensures { OnOk result (out.new.items ≡ out.old.items ++ cache_field max_age) }
{
    if max_age == 0 {
        return put(out, b"\r\nCache-Control: no-cache");
    }
    put_all(
        out,
        &[
            Fragment::Plain(b"\r\nCache-Control: max-age="),
            Fragment::Number(max_age),
        ],
    )
}

fn put_last(
    out: &mut Vec<u8>,
    keeps: bool,
    representation: Representation,
    redirects: bool,
) -> Result<(), AllocError>
    ensures { OnOk result (out.new.items ≡ out.old.items ++ last_fields keeps representation redirects) }
{
    put_all(
        out,
        &[
            Fragment::Plain(LAST_FIELDS),
            Fragment::Plain(policy_field(representation, redirects)),
            Fragment::Plain(connection_field(keeps)),
            Fragment::Plain(b"\r\n\r\n"),
        ],
    )
}

impl Response {
    /// Returns a response that is not a redirect.
    pub fn new(status: Status, representation: Representation, body: Vec<u8>) -> Response
        ensures { result ≡ response_with status representation body.items }
    {
        Response {
            status,
            location: None,
            representation,
            body,
            tag: None,
            max_age: 0,
            redirects: false,
        }
    }

    /// Returns the response to a client that has the representation with this entity tag (RFC 9110, section 15.4.5).
    pub fn not_modified(
        alloc: Global,
        tag: Vec<u8>,
        max_age: u32,
        representation: Representation,
    ) -> Response
        ensures { result ≡ not_modified tag.items max_age representation }
    {
        Response {
            status: Status::NotModified,
            location: None,
            representation,
            body: Vec::new(alloc),
            tag: Some(tag),
            max_age,
            redirects: false,
        }
    }

    /// Returns the response with an entity tag, and for how many seconds a cache may use it without asking again.
    pub fn with_tag(self, tag: Vec<u8>, max_age: u32) -> Response
        ensures { result ≡ with_tag tag.items max_age self }
    {
        Response {
            status: self.status,
            location: self.location,
            representation: self.representation,
            body: self.body,
            tag: Some(tag),
            max_age,
            redirects: self.redirects,
        }
    }

    /// Returns the response of a site that redirects browsers to a sole hit or not. A document of HTML or XML is
    /// UTF-8.
    ///
    /// # Errors
    ///
    /// Running out of memory.
    pub fn of_site(self, alloc: Global, redirects: bool) -> Result<Response, AllocError>
        ensures { IfOk result (λ reply. reply ≡ of_site redirects self) }
    {
        let body = sent_body(alloc, self.representation, self.body)?;
        Ok(Response {
            status: self.status,
            location: self.location,
            representation: self.representation,
            body,
            tag: self.tag,
            max_age: self.max_age,
            redirects: is_document(self.representation) && redirects,
        })
    }

    /// Returns a redirect.
    pub fn redirect(alloc: Global, location: Vec<u8>) -> Response
        ensures { result ≡ redirect_to location.items }
    {
        Response {
            status: Status::Found,
            location: Some(location),
            representation: Representation::Text,
            body: Vec::new(alloc),
            tag: None,
            max_age: 0,
            redirects: false,
        }
    }

    /// Returns whether the status is 200.
    pub fn is_good(&self) -> bool
        ensures { result ≡ is_good self.now.status }
    {
        self.status == Status::Good
    }

    /// Returns the representation of the response.
    pub fn representation(&self) -> Representation
        ensures { result ≡ self.now.representation }
    {
        self.representation
    }

    // Returns for how many seconds a cache may use the response without asking again.
    fn age(&self) -> u64
        ensures { result ≡ self.now.max_age }
    {
        u64::from(self.max_age)
    }

    // Returns the location, which is empty if there is none.
    fn location(&self) -> &[u8]
        ensures { result.now ≡ self.now.location }
    {
        match &self.location {
            Some(location) => location,
            None => b"",
        }
    }

    // Returns the entity tag, which is empty if there is none.
    fn tag(&self) -> &[u8]
        ensures { result.now ≡ self.now.tag }
    {
        match &self.tag {
            Some(tag) => tag,
            None => b"",
        }
    }

    // Returns the length of the body.
    fn size(&self) -> u64
        ensures { result ≡ length self.now.body }
    {
        length_of(&self.body)
    }

    #[tactic(auto, unfolding(crate::specs::Responses::response_head))]
    fn put_head(&self, out: &mut Vec<u8>, keeps: bool) -> Result<(), AllocError>
        ensures text { OnOk result (out.new.items ≡ out.old.items ++ response_head keeps self.now) }
        ensures size { OnOk result (length self.now.body < 2 ^ 64) }
        ensures age { OnOk result (self.now.max_age < 2 ^ 64) }
    {
        let size = self.size();
        let age = self.age();
        let location = self.location();
        let tag = self.tag();
        put_status_line(out, self.status)?;
        put_status_field(out, self.status, location)?;
        put_content(out, self.status, self.representation, size)?;
        put_tag(out, tag)?;
        put_cache(out, age)?;
        put_last(out, keeps, self.representation, self.redirects)
    }

    // The body that is sent: none if only the head was requested, or if the status excludes one.
    fn body(&self, head_alone: bool) -> &[u8]
        ensures { result.now ≡ response_body head_alone self.now }
    {
        if head_alone || is_bodiless(self.status) {
            b""
        } else {
            &self.body
        }
    }

    /// Returns the bytes of the response, without its body if only the head was requested. They say `Connection: close`
    /// exactly if the connection is not kept (RFC 9112, section 9.6).
    pub fn response(
        &self,
        alloc: Global,
        keeps: bool,
        head_alone: bool,
    ) -> Result<ResponseText, AllocError>
        ensures value { IfOk result (λ response. response ≡ response_of keeps head_alone self.now) }
        ensures message { IfOk result (λ response. IsLocation self.now.location → AllPass is_uri_byte self.now.tag
            → IsMessageFor keeps head_alone response) }
    {
        let body = self.body(head_alone);
        let mut bytes = Vec::new(alloc);
        self.put_head(&mut bytes, keeps)?;
        put(&mut bytes, body)?;
        Ok(ResponseText {
            bytes,
            status: status_code(self.status),
            body_length: body.len(),
        })
    }
}
