//! Laws of documents, each stated as the contract of a function with an empty body.
ghost use Rattle.feed_xml.specs.Laws.{AllowedIsItself, HasNoControls, MarksReadBack};

/// A reader of XML gets the tags and the characters of a document back from its text. So no `<`, `>` or `&` of a text
/// in it is read as markup.
pub fn marks_read_back()
    ensures { MarksReadBack }
{}

/// A text has no control character but tab, LF and CR, as XML 1.0 requires.
pub fn allowed_has_no_controls()
    ensures { HasNoControls }
{}

/// A text of characters that XML 1.0 has is written as it is: U+FFFD replaces the others alone.
pub fn allowed_is_itself()
    ensures { AllowedIsItself }
{}
