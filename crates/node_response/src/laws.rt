//! Laws of responses and of escaped texts, each stated as the contract of a function with an empty body.
ghost use Rattle.node_response.specs.Laws.{EscapedHasNoMarkup, EscapedReadsBack, JsonReadsBack};
ghost use Rattle.node_response.specs.Laws.{FaultIsJson, PagesAreUtf8, ResponseReadsBack, NotModifiedIsHeadOfGood};
ghost use Rattle.node_response.specs.TagLaws.{SameInputsSameTag, TagIsVisible};

/// A text escaped for a page has no `<`, `>`, `"` and `'`, and no control character.
pub fn escaped_has_no_markup()
    ensures { EscapedHasNoMarkup }
{}

/// Decoding an escaped text returns the text, with a space in place of each control character, so each `&` in it begins
/// a character reference.
pub fn escaped_reads_back()
    ensures { EscapedReadsBack }
{}

/// A page that a site sends is UTF-8, whatever texts are in it.
pub fn pages_are_utf8()
    ensures { PagesAreUtf8 }
{}

/// A JSON string is, by the grammar of JSON (RFC 8259, section 7), the text from which it was written.
pub fn json_reads_back()
    ensures { JsonReadsBack }
{}

/// The body of an error response in JSON is an object whose only member is the name of the error.
pub fn fault_is_json()
    ensures { FaultIsJson }
{}

/// A response reads as one head and its body by the grammar of HTTP, and the response to a HEAD as that head alone.
pub fn response_reads_back()
    ensures { ResponseReadsBack }
{}

/// A 304 has no body, and states the entity tag, how long a cache may keep it and what it depends on as the whole
/// response does (RFC 9110, section 15.4.5).
pub fn not_modified_is_head_of_good()
    ensures { NotModifiedIsHeadOfGood }
{}

/// Equal inputs have equal tags.
pub fn same_inputs_same_tag()
    ensures { SameInputsSameTag }
{}

/// A tag has no space and no control byte, so that a field can state it.
pub fn tag_is_visible()
    ensures { TagIsVisible }
{}
