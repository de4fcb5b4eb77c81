//! The HTML of the pages. A page is data: a list of templates, each with values for its slots. The lines of a template
//! are HTML. One function writes them all, and one law says what a value can do to a page.
#![tactic(auto)]

// A hole behind a fragment of HTML: the value of a slot, or a text in the language of the library.
macro_rules! hole {
    (text $text:ident) => {
        crate::template::Hole::Words(node_site::Text::$text)
    };
    ($slot:ident) => {
        crate::template::Hole::Value(crate::slot::Slot::$slot)
    };
}

// The condition of a line: none, or a slot has a value, one that is safe in a link, or one that is safe in a style.
macro_rules! when {
    () => {
        crate::template::When::Always
    };
    (link $slot:ident) => {
        crate::template::When::Linked(crate::slot::Slot::$slot)
    };
    (style $slot:ident) => {
        crate::template::When::Styled(crate::slot::Slot::$slot)
    };
    ($slot:ident) => {
        crate::template::When::Given(crate::slot::Slot::$slot)
    };
}

// The fragments of a line: those that are done, the HTML since the last hole, and the rest of the line.
macro_rules! line {
    ([$($done:tt)*] [$($html:literal)*]) => {
        &[$($done)* (concat!($($html,)* "\n"), crate::template::Hole::Nothing)]
    };
    ([$($done:tt)*] [] ..) => {
        &[$($done)*]
    };
    ([$($done:tt)*] [$($html:literal)+] ..) => {
        &[$($done)* (concat!($($html),+), crate::template::Hole::Nothing)]
    };
    ([$($done:tt)*] [$($html:literal)*] {$($hole:ident)+} $($rest:tt)*) => {
        line!([$($done)* (concat!($($html),*), hole!($($hole)+)),] [] $($rest)*)
    };
    ([$($done:tt)*] [$($html:literal)*] $next:literal $($rest:tt)*) => {
        line!([$($done)*] [$($html)* $next] $($rest)*)
    };
}

// A template. Brackets enclose a line of HTML, which continues in the next brackets if it ends in `..`. Braces enclose
// the name of a slot or of a text. `if` names the slot that a line needs.
macro_rules! template {
    ($($(if ($($when:ident)+))? [$($line:tt)*])*) => {
        &[$((when!($($($when)+)?), line!([] [] $($line)*))),*]
    };
}

mod citation;
mod form;
mod fragment;
mod frame;
mod laws;
mod lines;
mod lists;
mod slot;
mod template;
mod values;
mod write;

pub use laws::{fragments_keep_tags, pages_keep_tags, templates_are_sound};
pub use slot::Slot;
pub use template::Template;
pub use values::{text_if, text_or_nothing};
pub use write::put_page;
