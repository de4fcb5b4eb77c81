//! The forms in which a reader asks for a journal or a book, and for titles.
use crate::template::TemplateLine;

pub(crate) const SEARCH_FORM: &[TemplateLine] = template![
    [r#"<form action="/resolve" method="get">"#]
    [r#"<input type="hidden" name="format" value="html">"#]
    [r#"<label for="issn">"# {text FieldIssn} "</label>"]
    [r#"<input id="issn" name="rft.issn" value=""# {Issn} r#"">"#]
    [r#"<label for="isbn">"# {text FieldIsbn} "</label>"]
    [r#"<input id="isbn" name="rft.isbn" value=""# {Isbn} r#"">"#]
    [r#"<label for="date">"# {text FieldDate} "</label>"]
    [r#"<input id="date" name="rft.date" value=""# {Date} r#"">"#]
    [r#"<label for="volume">"# {text FieldVolume} "</label>"]
    [r#"<input id="volume" name="rft.volume" value=""# {Volume} r#"">"#]
    [r#"<button type="submit">"# {text Search} "</button>"]
    ["</form>"]
];

pub(crate) const TITLES_FORM: &[TemplateLine] = template![
    [r#"<form action="/titles" method="get">"#]
    [r#"<input type="hidden" name="format" value="html">"#]
    [r#"<label for="q">"# {text FieldTitle} "</label>"]
    [r#"<input id="q" name="q" maxlength="256" value=""# {Wanted} r#"">"#]
    [r#"<button type="submit">"# {text FindTitles} "</button>"]
    ["</form>"]
];
