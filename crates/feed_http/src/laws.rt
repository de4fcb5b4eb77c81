//! Laws of responses and over both ends, each stated as the contract of a function with an empty body.
ghost use Rattle.feed_http.specs.Laws.{FetchGivesSlice, HeadGivesSize, PartReadsBack, SizeReadsBack};
ghost use Rattle.feed_http.specs.ResponseLaws.{HasOneBody, IsNeverBoth, GivesParts, IsPartOfFile};
ghost use Rattle.feed_http.specs.ResponseLaws.{HasOneResult, IsNeverShort, HasNoFault, HasNoFront};

/// If the response to a GET is a part of a file, as the server writes it, `read_reply` returns the piece with its first
/// place, the file's length and the bytes.
pub fn part_reads_back()
    ensures { PartReadsBack }
{}

/// If `write_request` writes a request, `serve_one` serves it and `read_reply` reads the response, the result is the
/// slice of the file, for a host that `is_host` accepts, a release whose file is on the shelf, and a first place that
/// the file has.
pub fn fetch_gives_slice()
    ensures { FetchGivesSlice }
{}

/// If the response to a HEAD is as the server writes it, `read_reply` returns the length.
pub fn size_reads_back()
    ensures { SizeReadsBack }
{}

/// If `write_head_request` writes a request, `serve_one` serves it and `read_reply` reads the response, the result is
/// the length of the file, for a host that `is_host` accepts and a release whose file is on the shelf.
pub fn head_gives_size()
    ensures { HeadGivesSize }
{}

/// A text has at most one chunked body at its front, and no text that has one breaks off.
pub fn a_body_ends_in_one_place()
    ensures one { HasOneBody }
    ensures never { IsNeverBoth }
{}

/// A text has at most one result. A text that has one does not break off, and has no fault but `Read` and `Memory`. No
/// shorter front of a whole response has a result, so a machine finds the byte at which the response ends.
pub fn a_response_has_one_result()
    ensures one { HasOneResult }
    ensures never { IsNeverShort }
    ensures fault { HasNoFault }
    ensures front { HasNoFront }
{}

/// If the front of a response announces a whole file of a stated length, each part of the body that a machine gave is a
/// slice of the body at its place. If further bytes complete the response, the part is a slice of its file.
pub fn an_arriving_part_is_of_the_file()
    ensures given { GivesParts }
    ensures file { IsPartOfFile }
{}
