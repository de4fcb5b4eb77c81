//! The hits of a query in the releases of a node: what the query asks for, how many hits there are, the first ones, and
//! the best link among them. They are written as text, as JSON and as SFX replies.
#![tactic(auto)]

mod answer_json;
mod coverage;
mod coverage_grade;
mod embargo_words;
mod hits;
mod hits_json;
mod hits_text;
mod laws;
mod links;
mod lookup;
mod query_facts;
mod rank;
mod ranked_hit;
mod received_openurl;
mod row_places;
mod search;
mod sfx;
mod sfx_laws;
mod sfx_more;
mod sfx_names;
mod sfx_target;
mod shares;
mod shown;
mod tally;
mod text_room;
mod top;

pub use answer_json::put_answer_json;
pub use coverage::{days_words, volumes_words};
pub use hits::{LibraryRelease, ReleaseHit, name_text};
pub use hits_json::put_release_members;
pub use hits_text::put_release;
pub use laws::{
    answer_is_json, articles_come_first, best_link_ranks_highest, books_come_first, each_has_share,
    hits_are_found, hits_are_json, links_are_proxied, looks_are_at_places, ranks_in_order,
    redirects_to_link, search_is_bounded, shown_hits_are_bounded, sole_link_is_of_sole_hit,
    tally_tells_of_hits, whole_is_of_answer,
};
pub use lookup::Lookup;
pub use query_facts::{QueryFacts, is_blank, names_work};
pub use rank::{is_abstracts, is_free, is_full_text, is_selection};
pub use ranked_hit::RankedHit;
pub use received_openurl::ReceivedOpenUrl;
pub use search::{Scope, Search};
pub use sfx::{put_no_targets, put_sfx};
pub use sfx_laws::{
    full_texts_are_alone, reply_has_targets, reply_names_more, sfx_is_balanced, sfx_reads_back,
    targets_are_hits_and_links, targets_are_links,
};
pub use shares::{ROW_LIMIT, Shares, equal_share, row_count};
pub use shown::NAMED_LIMIT;
pub use tally::Tally;
