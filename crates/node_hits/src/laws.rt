//! Laws of hits, each stated as the contract of a function with an empty body.
ghost use Rattle.node_hits.specs.Laws.{AnswerIsJson, ArticlesComeFirst, BestLinkRanksHighest, BooksComeFirst};
ghost use Rattle.node_hits.specs.Laws.{EachHasShare, HitsAreFound, HitsAreJson};
ghost use Rattle.node_hits.specs.Laws.{LinksAreProxied, LooksAreAtPlaces, RanksInOrder};
ghost use Rattle.node_hits.specs.Laws.{RedirectsToLink, SearchIsBounded, ShownHitsAreBounded, SoleLinkIsOfSoleHit};
ghost use Rattle.node_hits.specs.Laws.{TallyTellsOfHits, WholeIsOfAnswer};

/// The URL of a redirect is one of `http` or `https` in at most 8,000 bytes of visible ASCII, so no byte of a file can
/// end a line of a response's head.
pub fn redirects_to_link()
    ensures { RedirectsToLink }
{}

/// The link to the page of a hit is its URL as the site of the library writes it.
pub fn links_are_proxied()
    ensures { LinksAreProxied }
{}

/// A hit has a link to the article exactly if its row matches the query, readers have it, the row covers full texts or
/// does not say what it covers, and the site has a link for what the query cites. This is then the link of the hit.
pub fn articles_come_first()
    ensures { ArticlesComeFirst }
{}

/// No hit that may be linked to ranks above the best link.
pub fn best_link_ranks_highest()
    ensures { BestLinkRanksHighest }
{}

/// One hit ranks above another exactly if it is a book that comes before its series and the other is not, or else its
/// availability is better, or that is the same and its grade is better, or both are the same and its depth and access
/// are, or these are too and the site lists its package first.
pub fn ranks_in_order()
    ensures { RanksInOrder }
{}

/// Where a book comes before its series, each hit that is a book ranks above each that is a serial.
pub fn books_come_first()
    ensures { BooksComeFirst }
{}

/// A sole link is that of the only hit in all rows, which is available and covers the whole of what is asked for, in
/// full text, and all of whose days that are asked for the library has; and such a hit has one.
pub fn sole_link_is_of_sole_hit()
    ensures { SoleLinkIsOfSoleHit }
{}

/// A tally that is made release by release says how many hits there are, whether these are all, which releases may have
/// more, the first hits, those of the highest ranks, and the best link.
pub fn tally_tells_of_hits()
    ensures { TallyTellsOfHits }
{}

/// Of each release the first rows are looked at: 5,000 divided by the number of releases with rows of the query, and at
/// least one, whatever the others have. In all releases together they are at most 5,000; if these have no more rows,
/// all are looked at.
pub fn each_has_share()
    ensures { EachHasShare }
{}

/// A hit in the rows that are looked at is counted, unless its texts count: then it may be skipped, and the release is
/// not whole.
pub fn hits_are_found()
    ensures { HitsAreFound }
{}

/// A search counts 5,000 hits at most in all releases together, and their texts count as 5,000 at most, by 250 bytes of
/// each. If more releases have rows of the query, their number is the bound.
pub fn search_is_bounded()
    ensures { SearchIsBounded }
{}

/// A response shows at most 1,000 hits. Their texts and links have fewer than 524,288 bytes in all, whatever the lists,
/// the site and the query are.
pub fn shown_hits_are_bounded()
    ensures { ShownHitsAreBounded }
{}

/// A release that is whole has exactly the hits of the core that are searched for and that the library has, in their
/// order.
pub fn whole_is_of_answer()
    ensures { WholeIsOfAnswer }
{}

/// A search looks at the rows that have one of the query's identifiers, in ascending order and at each once.
pub fn looks_are_at_places()
    ensures { LooksAreAtPlaces }
{}

/// The hits in JSON are, by its grammar (RFC 8259), an array with one object for each hit that is shown, in their
/// order, and one more if others are left out.
pub fn hits_are_json()
    ensures { HitsAreJson }
{}

/// An answer in JSON is, by its grammar, an object with the citation, the query that is looked up, the reason why none
/// is, the hits, the titles whose date is covered and whose volume is not, and the packages that may have more hits.
pub fn answer_is_json()
    ensures { AnswerIsJson }
{}
