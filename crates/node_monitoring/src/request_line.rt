//! The first line of a request, and how the log shows it.
ghost use Rattle.std.specs.Prelude.{◌≡◌, ◌==◌, ◌||◌, ◌++◌, ◌∷◌, not};
ghost use Rattle.std.specs.List.{position};
ghost use Rattle.node_monitoring.specs.Queries.{first_line, from_place, is_line_end, to_place, page_of, shown_text};

/// The first line of a request as it is logged: three parts with a gap between each and the next.
#[derive(Clone, Copy)]
pub struct RequestLine<'a> {
    pub method: &'a [u8],
    pub target: &'a [u8],
    pub version: &'a [u8],
    /// A space, or nothing if the line is the first part alone.
    pub gap: &'static [u8],
}

fn is_line_end(byte: u8) -> bool
    ensures { result ≡ is_line_end byte }
{
    byte == 13 || byte == 10
}

// Returns the place of the first end of a line.
fn end_in(bytes: &[u8]) -> Option<usize>
    ensures { result ≡ position is_line_end bytes.now }
{
    bytes.iter().position(|byte| is_line_end(*byte))
}

// Returns the place of the first byte that ends no line.
fn start_in(bytes: &[u8]) -> Option<usize>
    ensures { result ≡ position (λ b. not (is_line_end b)) bytes.now }
{
    bytes.iter().position(|byte| !is_line_end(*byte))
}

fn before_line_end(bytes: &[u8]) -> &[u8]
    ensures { result.now ≡ to_place bytes.now (position is_line_end bytes.now) }
{
    match end_in(bytes) {
        Some(place) => &bytes[..place],
        None => bytes,
    }
}

// Returns the bytes from the first one that ends no line.
fn from_line(bytes: &[u8]) -> &[u8]
    ensures { result.now ≡ from_place bytes.now (position (λ b. not (is_line_end b)) bytes.now) }
{
    match start_in(bytes) {
        Some(place) => &bytes[place..],
        None => b"",
    }
}

/// Returns the first line that is not empty.
pub fn first_line(bytes: &[u8]) -> &[u8]
    ensures { result.now ≡ first_line bytes.now }
{
    before_line_end(from_line(bytes))
}

impl<'a> RequestLine<'a> {
    /// Returns a line of one part.
    pub fn whole(line: &'a [u8]) -> RequestLine<'a>
        ensures { shown_text result ≡ line.now }
    {
        RequestLine {
            method: line,
            target: b"",
            version: b"",
            gap: b"",
        }
    }

    /// Returns the line of a method, a target and a version.
    pub fn of_parts(method: &'a [u8], target: &'a [u8], version: &'a [u8]) -> RequestLine<'a>
        ensures { shown_text result ≡ method.now ++ 32 ∷ (target.now ++ 32 ∷ version.now) }
    {
        RequestLine {
            method,
            target,
            version,
            gap: b" ",
        }
    }
}

// Returns the place of the query or the fragment.
fn suffix_in(url: &[u8]) -> Option<usize>
    ensures { result ≡ position (λ b. (b == 63) || (b == 35)) url.now }
{
    url.iter().position(|byte| *byte == 63 || *byte == 35)
}

/// Returns the part of a URL before its query and its fragment.
pub fn without_query_part(url: &[u8]) -> &[u8]
    ensures { result.now ≡ page_of url.now }
{
    match suffix_in(url) {
        Some(place) => &url[..place],
        None => url,
    }
}
