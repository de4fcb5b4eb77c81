//! The lists of hits, of titles and of packages, and the lines around them.
use crate::template::TemplateLine;

pub(crate) const CARDS: &[TemplateLine] = template![if (Listed) [r#"<ul class="hits">"#]];

/// The card of a hit: its package and its title; what a reader has to know before the button, as that the row does not
/// match, or that it is not open; the button, its fit, its note and its coverage. The button leads to the article, and
/// then there is a second link to the page of the row, or else to that page. The package in the button is for readers
/// who do not see the card.
pub(crate) const CARD: &[TemplateLine] = template![
    ["<li>"]
    [r#"<p class="name"><bdi>"# {Package} "</bdi></p>"]
    if (Title) [r#"<p class="title"><bdi>"# {Title} "</bdi></p>"]
    if (Unmatched) [r#"<p class="fit partly">"# {Unmatched} "</p>"]
    if (Limit) [r#"<p class="fit partly">"# {Limit} "</p>"]
    if (link ArticleLink) [
        r#"<a class="go" href=""# {ArticleLink} r#"">"# {text ReadArticle}
        r#"<span class="hidden">, <bdi>"# {Package} "</bdi></span></a>"
    ]
    if (link PageLink) [r#"<p><a href=""# {PageLink} r#"">"# {text JournalPage} " " {Host} "</a></p>"]
    if (link Link) [
        r#"<a class="go" href=""# {Link} r#"">"# {text ReadAt} " " {Host}
        r#"<span class="hidden">, <bdi>"# {Package} "</bdi></span></a>"
    ]
    if (Fit) [r#"<p class="fit "# {FitClass} r#"">"# {Fit} "</p>"]
    if (Note) [r#"<p class="note"><bdi>"# {Note} "</bdi></p>"]
    [r#"<div class="more">"# {Coverage} "</div>"]
    ["</li>"]
];

pub(crate) const LEFT_OUT: &[TemplateLine] = template![
    if (Listed) ["</ul>"]
    if (LeftOut) ["<p>" {LeastText} " " {LeftOut} "." ..]
    if (Hint) [" " {Hint} ..]
    if (LeftOut) ["</p>"]
    if (MayHaveMore) ["<p>" {text MoreIn} " <bdi>" {MayHaveMore} "</bdi>.</p>"]
];

pub(crate) const WAYS: &[TemplateLine] = template![
    if (Listed) ["<h2>" {text OtherWays} "</h2>"]
    if (Listed) ["<ul>"]
];

pub(crate) const WAY: &[TemplateLine] = template![
    if (link Way) [r#"<li><a href=""# {Way} r#""><bdi>"# {Label} "</bdi></a></li>"]
];

pub(crate) const WAYS_END: &[TemplateLine] = template![
    if (Listed) ["</ul>"]
    ["<h2>" {text NewSearch} "</h2>"]
];

/// The card of a title, which is a link to its hits.
pub(crate) const TITLE_CARD: &[TemplateLine] = template![
    ["<li>"]
    [r#"<p class="name"><a href="/resolve?format=html"# {Numbers} r#""><bdi>"# {Title} "</bdi></a></p>"]
    [r#"<p class="title"><bdi>"# {Package} "</bdi></p>"]
    [r#"<div class="more">"# {Coverage} "</div>"]
    ["</li>"]
];

pub(crate) const TITLES_END: &[TemplateLine] = template![
    if (Listed) ["</ul>"]
    ["<p>" {text TitleOrder} "</p>"]
    if (Start) [
        r#"<p><a href="/titles?format=html&amp;q="# {Encoded} "&amp;start=" {Start} r#"">"# {text FurtherTitles}
        "</a></p>"
    ]
];

pub(crate) const PACKAGES: &[TemplateLine] = template![
    if (Listed) ["<h2>" {text Packages} "</h2>"]
    if (Listed) ["<ul>"]
];

pub(crate) const PACKAGE: &[TemplateLine] = template![["<li><bdi>" {Package} "</bdi></li>"]];

/// The end of the list, and a link to the page of all packages if some are left out.
pub(crate) const PACKAGES_END: &[TemplateLine] = template![
    if (Listed) ["</ul>"]
    if (LeftOut) [r#"<p><a href="/status?format=html">"# {text NotShown} " " {LeftOut} "</a></p>"]
];
