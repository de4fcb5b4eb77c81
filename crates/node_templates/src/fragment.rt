//! The frame of a fragment, which another site has in a page of its own: no style, no script and no form.
use crate::template::TemplateLine;

/// A fragment up to and including its heading.
pub(crate) const FRAGMENT_TOP: &[TemplateLine] = template![
    [r#"<div class="kbfeed" lang=""# {Language} r#"">"#]
    [r#"<p class="heading">"# {Heading} "</p>"]
];

/// The beginning of the list of the library's links, if it has any.
pub(crate) const FRAGMENT_WAYS: &[TemplateLine] = template![
    if (Listed) [r#"<p class="ways">"# {text OtherWays} "</p>"]
    if (Listed) ["<ul>"]
];

/// The end of a list, if there is one, and of a fragment.
pub(crate) const FRAGMENT_END: &[TemplateLine] = template![
    if (Listed) ["</ul>"]
    ["</div>"]
];
