//! The citation of a query.
use crate::template::TemplateLine;

/// The cited work and its numbers: a row for each.
pub(crate) const CITED_WORK: &[TemplateLine] = template![
    if (Cited) ["<dl>"]
    if (Article) ["<dt>" {text Article} "</dt><dd><bdi>" {Article} "</bdi></dd>"]
    if (Work) ["<dt>" {text Work} "</dt><dd><bdi>" {Work} "</bdi></dd>"]
    if (Author) ["<dt>" {text Author} "</dt><dd><bdi>" {Author} "</bdi></dd>"]
    if (Issn) ["<dt>ISSN</dt><dd><bdi>" {Issn} "</bdi></dd>"]
    if (Isbn) ["<dt>ISBN</dt><dd><bdi>" {Isbn} "</bdi></dd>"]
];

/// The place in the work. A date and a volume that are not understood have a note.
pub(crate) const CITED_PLACE: &[TemplateLine] = template![
    if (DateRead) ["<dt>" {text Date} "</dt><dd><bdi>" {DateRead} "</bdi></dd>"]
    if (DateNoted) ["<dt>" {text Date} "</dt><dd><bdi>" {DateNoted} "</bdi> (" {text NotUnderstood} ")</dd>"]
    if (VolumeRead) ["<dt>" {text Volume} "</dt><dd><bdi>" {VolumeRead} "</bdi></dd>"]
    if (VolumeNoted) ["<dt>" {text Volume} "</dt><dd><bdi>" {VolumeNoted} "</bdi> (" {text NotUnderstood} ")</dd>"]
    if (Issue) ["<dt>" {text Issue} "</dt><dd><bdi>" {Issue} "</bdi></dd>"]
    if (FirstPage) ["<dt>" {text Page} "</dt><dd><bdi>" {FirstPage} "</bdi></dd>"]
];

/// The names of the work, and the end of the citation. A DOI and a PMID that need no encoding in an address are links.
pub(crate) const CITED_NAMES: &[TemplateLine] = template![
    if (link DoiAddress) [
        r#"<dt>DOI</dt><dd><a href=""# {DoiAddress} r#""><bdi>"# {DoiLink} "</bdi></a></dd>"
    ]
    if (Doi) ["<dt>DOI</dt><dd><bdi>" {Doi} "</bdi></dd>"]
    if (PmidLink) [
        r#"<dt>PubMed</dt><dd><a href="https://pubmed.ncbi.nlm.nih.gov/"# {PmidLink} r#""><bdi>"# {PmidLink}
        "</bdi></a></dd>"
    ]
    if (Pmid) ["<dt>PubMed</dt><dd><bdi>" {Pmid} "</bdi></dd>"]
    if (Cited) ["</dl>"]
];

/// The citation as COinS ("OpenURL COinS: A Convention to Embed Bibliographic Metadata in HTML", stable version 1.0):
/// in the format of journals, or in that of books.
pub(crate) const COINS: &[TemplateLine] = template![
    if (JournalQuery) [
        r#"<span class="Z3988" title="ctx_ver=Z39.88-2004&amp;rft_val_fmt=info%3Aofi%2Ffmt%3Akev%3Amtx%3Ajournal&amp;"#
        {JournalQuery} r#""></span>"#
    ]
    if (BookQuery) [
        r#"<span class="Z3988" title="ctx_ver=Z39.88-2004&amp;rft_val_fmt=info%3Aofi%2Ffmt%3Akev%3Amtx%3Abook&amp;"#
        {BookQuery} r#""></span>"#
    ]
];

/// The faults of the ISSN and of the ISBN, if they have any.
pub(crate) const NUMBER_FAULTS: &[TemplateLine] = template![
    if (IssnFault) [
        r#"<p class="note"><bdi>"# {Issn} "</bdi>" {text Colon} " " {IssnFault} "</p>"
    ]
    if (IsbnFault) [
        r#"<p class="note"><bdi>"# {Isbn} "</bdi>" {text Colon} " " {IsbnFault} "</p>"
    ]
];
