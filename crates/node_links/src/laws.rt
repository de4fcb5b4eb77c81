//! Laws of the links to forms and to articles: each is the contract of a function with an empty body.
ghost use Rattle.node_links.specs.RequestLaws.{ArticlesAreWhole, PartsAddNoMarks, PartsAreNoSteps, RequestsAreLinks};
ghost use Rattle.node_links.specs.RequestLaws.{RequestsKeepHost};

/// A citation adds no byte but letters, digits and `%` to a link to a form or to an article: it ends no value and
/// begins no parameter.
pub fn parts_add_no_marks()
    ensures { PartsAddNoMarks }
{}

/// Such a link has the host of its template.
pub fn requests_keep_host()
    ensures { RequestsKeepHost }
{}

/// No part is a step of a path, also where it is escaped.
pub fn parts_are_no_steps()
    ensures { PartsAreNoSteps }
{}

/// Each link of a library is safe in a page.
pub fn requests_are_links()
    ensures { RequestsAreLinks }
{}

/// A row has a link to an article exactly if the citation has each name of the template of the row's package or
/// platform, and the link that this gives is safe. It goes through a proxy as the link to the row does.
pub fn articles_are_whole()
    ensures { ArticlesAreWhole }
{}
