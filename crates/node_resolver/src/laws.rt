//! Laws of all responses, each stated as the contract of a function with an empty body.
ghost use Rattle.node_resolver.specs.Laws.{SameReleasesSameBytes, SameReleasesSameNodeBytes, StatusIsJson};
ghost use Rattle.node_resolver.specs.Laws.{EachReleaseIsLookedAt, EachSearchIsBounded, HitsAreHeld, LinksAreHeld};
ghost use Rattle.node_resolver.specs.Laws.{WholeTextIsWritten};
ghost use Rattle.node_resolver.specs.Messages.{EveryPageIsUtf8, FormIsGet, GoesToBest, HeadIsHeadOfGet};
ghost use Rattle.node_resolver.specs.Messages.{RedirectsSoleHit};
ghost use Rattle.node_resolver.specs.SiteLaws.{HostHasItsSite, HostWithoutSiteIsMisdirected};
ghost use Rattle.node_resolver.specs.SiteLaws.{OtherSitesDoNotCount};
ghost use Rattle.node_resolver.specs.TagLaws.{SameReleasesSameTag, SameInputsSameBytes, NotModifiedHasTagOfGood};

/// Two nodes that report the same releases, and have stored their published files, give each request of a day the same
/// bytes.
pub fn same_releases_same_bytes()
    ensures { SameReleasesSameBytes }
{}

/// The same of the responses of `respond_as_node`, to each request that does not ask a node to fetch, if both nodes
/// have the same site for its host.
pub fn same_releases_same_node_bytes()
    ensures { SameReleasesSameNodeBytes }
{}

/// The response to a HEAD is the head of the response to the same GET, and nothing after it.
pub fn head_is_head_of_get()
    ensures { HeadIsHeadOfGet }
{}

/// `/go` redirects to a hit that is open to readers, or else to a link of the library, or else to a hit. No such hit
/// that is counted, and that may be linked to, ranks above it.
pub fn goes_to_best()
    ensures { GoesToBest }
{}

/// `/resolve` redirects only a browser, only if the library wants it, and only to the sole hit.
pub fn redirects_sole_hit()
    ensures { RedirectsSoleHit }
{}

/// The active releases in JSON are, by its grammar (RFC 8259), an array with one object for each, in their order. Each
/// list must have fewer than 2^64 rows and skipped records, as every list in memory has.
pub fn status_is_json()
    ensures { StatusIsJson }
{}

/// Each hit that is counted is one of the core that the library has. Each such hit is counted, if its release is whole.
pub fn hits_are_held()
    ensures { HitsAreHeld }
{}

/// Each release is looked at, whatever the others have. Let N releases have rows that the query may look at: in each,
/// the first 5,000 / N rows are looked at, and one at least. A hit in a row that is looked at is counted,
/// or its texts are long and its release is said to have more.
pub fn each_release_is_looked_at()
    ensures { EachReleaseIsLookedAt }
{}

/// In all releases together, a search counts 5,000 hits at most, and their texts count as 5,000 at most, by 250 bytes
/// of each. If more releases have rows that the query may look at, their number is the bound.
pub fn each_search_is_bounded()
    ensures { EachSearchIsBounded }
{}

/// A hit that the library does not have is never linked to.
pub fn links_are_held()
    ensures { LinksAreHeld }
{}

/// A response that has all hits and shows them has, as text, the answers that `Answer::write` prints of the
/// hits that the library has.
pub fn whole_text_is_written()
    ensures { WholeTextIsWritten }
{}

/// The response to a form is that to the GET whose query is the form, without a tag.
pub fn form_is_get()
    ensures { FormIsGet }
{}

/// Two nodes of the same version, settings and site file that report the same releases have the same entity tags on a
/// day.
pub fn same_releases_same_tag()
    ensures { SameReleasesSameTag }
{}

/// What an entity tag is made of determines the response: its bytes are the same where the version, the settings, the
/// site file, the day and the names of the releases are, if these are published files.
pub fn same_inputs_same_bytes()
    ensures { SameInputsSameBytes }
{}

/// A 304 replaces a 200 alone, and has the entity tag that the 200 would have had.
pub fn not_modified_has_tag_of_good()
    ensures { NotModifiedHasTagOfGood }
{}

/// Each page is UTF-8, whatever the query, the lists and the site file have.
pub fn every_page_is_utf8()
    ensures { EveryPageIsUtf8 }
{}

/// The response to a request does not depend on the sites of other hosts.
pub fn other_sites_do_not_count()
    ensures { OtherSitesDoNotCount }
{}

/// The response to a request for a host that has a site is that of a resolver with this site.
pub fn host_has_its_site()
    ensures { HostHasItsSite }
{}

/// A request for a host without a site gets 421 (RFC 9110, section 15.5.20).
pub fn host_without_site_is_misdirected()
    ensures { HostWithoutSiteIsMisdirected }
{}
