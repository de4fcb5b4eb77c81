//! The site file of a library: its name and colour, its proxy, its links, and which packages it has. The holdings file
//! beside it, which lists titles. The sites of several hosts, and the texts of the pages in English, German and French,
//! which a site may replace.
#![tactic(auto)]

mod article_templates;
mod bytes;
mod cells;
mod checks;
mod column;
mod cuts;
mod domains;
mod english;
mod entry;
mod fault;
mod field;
mod french;
mod german;
mod held;
mod holding;
mod holdings_clash;
mod holdings_fault;
mod holdings_file;
mod holdings_reading;
mod holdings_rows;
mod hosts;
mod kind;
mod laws;
mod links;
mod lookup;
mod merge;
mod notes;
mod occasion;
mod on_listed;
mod on_titles;
mod open_prefixes;
mod packages;
mod places;
mod platforms;
mod position;
mod prefixes;
mod section;
mod site_fault;
mod site_file;
mod sites;
mod template;
mod text;
mod text_names;
mod text_table;
mod text_words;
mod texts;
mod title_places;
mod urls;
mod values;

pub use article_templates::{article_template, is_direct};
pub use column::Column;
pub use fault::ValueFault;
pub use field::{Field, Names};
pub use held::{library_has, may_hold};
pub use holdings_fault::{BadLine, HoldingsFault};
pub use holdings_file::HoldingsFile;
pub use holdings_reading::{HoldingsReading, ReadingStep};
pub use holdings_rows::HOLDINGS_LIMIT;
pub use hosts::{URL_LIMIT, host_of, is_link, shown_host};
pub use laws::{
    all_is_held, case_does_not_count, excepted_is_direct, free_is_direct, held_days_are_shown,
    hosts_are_standard, link_fits, links_are_standard, no_proxy_is_direct, off_is_not_held,
    off_package_is_not_held, other_site_decides, others_go_through, own_site_decides,
    subdomains_are_within, texts_have_names, unlisted_is_not_held,
};
pub use links::{encoded, left_beside, may_be_link, through};
pub use lookup::text_or_empty;
pub use notes::note_on;
pub use occasion::{LinkOccasion, LinkUse, SearchOutcome};
pub use open_prefixes::{OpenPrefix, prefixes_left_open};
pub use packages::{name_for_readers, package_place, shown_package};
pub use position::Position;
pub use prefixes::{Prefix, again, encodes, prefix_at};
pub use site_fault::{KeyFault, SiteFault};
pub use site_file::{SITE_LIMIT, SiteFile};
pub use sites::{SITES_LIMIT, Sites, SitesFault};
pub use text_table::{TEXTS, Text};
pub use text_words::is_name;
pub use texts::{Language, text_of};
pub use urls::{begins_with, is_all_visible};
