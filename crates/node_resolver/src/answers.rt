//! Counts the hits of a query in the active releases on a day, and writes the body that lists them.
ghost use Rattle.std.specs.Prelude.{◌≡◌, ◌≤◌, ◌++◌, IfOk, OnOk};
ghost use Rattle.node_hits.specs.Hits.{links_of};
ghost use Rattle.node_hits.specs.Tallying.{no_hits, with_release, with_releases};
ghost use Rattle.node_request.specs.declared.representation.Representation.TheVariants.{Json, Html, Fragment, Sfx};
ghost use Rattle.node_resolver.specs.Answers.{also_beside, answers_body, found_among, found_by, has_both, is_placed};
ghost use Rattle.node_resolver.specs.Answers.{others_beside, release_in, shares_in, sited_in};
ghost use Rattle.node_resolver.specs.AnswerTexts.{texts_from};

use crate::context::Context;
use crate::shares::shares_among;
use feed_answer::Query;
use feed_releases::ActiveRelease;
use node_hits::{
    LibraryRelease, Lookup, ReceivedOpenUrl, Search, Shares, Tally, put_answer_json, put_release,
    put_sfx,
};
use node_links::CitedLinks;
use node_pages::{Tallies, put_hits_fragment, put_hits_page};
use node_request::{Representation, sfx_options_in};
use std::alloc::{AllocError, Global};

fn add_release<'a>(
    alloc: Global,
    tally: &mut Tally<'a>,
    context: &Context<'a>,
    active: &ActiveRelease<'a>,
    search: &Search<'a>,
    links: &mut CitedLinks<'a>,
    shares: Shares,
) -> Result<(), AllocError>
    requires rows { shares.rows ≤ 10000 }
    requires site { links.old ≡ links_of context.now.site.library search.now }
    ensures kept { links.new ≡ links.old }
    ensures added { OnOk result (tally.new
        ≡ with_release tally.old
        (release_in shares context.now.site.library context.now.actives.today search.now active.now)) }
{
    let release = LibraryRelease {
        site: context.library(),
        today: context.today,
        name: active.name(),
        holdings: active.holdings(),
    };
    tally.add_release(alloc, &release, search, links, shares)
}

// Returns the tally of the hits of a search in the releases, in their order, within these shares.
fn tally_by<'a>(
    alloc: Global,
    context: &Context<'a>,
    search: &Search<'a>,
    shares: Shares,
) -> Result<Tally<'a>, AllocError>
    requires { shares.rows ≤ 10000 }
    ensures { IfOk result (λ tally. tally
        ≡ with_releases no_hits (found_by shares search.now (sited_in context.now))) }
{
    let mut tally = Tally::new(alloc);
    let mut links = search.links(alloc, context.library());
    for active in context.actives {
        let links = &mut links;
        add_release(alloc, &mut tally, context, active, search, links, shares)?;
    }
    Ok(tally)
}

/// Returns the tally of the hits of a query in the releases, in their order.
pub(crate) fn tally_among<'a>(
    alloc: Global,
    context: &Context<'a>,
    lookup: &'a Lookup<'a>,
    shares: Shares,
) -> Result<Tally<'a>, AllocError>
    requires shares { shares ≡ shares_in lookup.now (sited_in context.now) }
    requires small { shares.rows ≤ 10000 }
    ensures { IfOk result (λ tally. tally
        ≡ with_releases no_hits (found_among lookup.now (sited_in context.now))) }
{
    tally_by(alloc, context, &Search::of(lookup), shares)
}

fn has_both(query: &Query) -> bool
    ensures { result ≡ has_both query.now }
{
    query.days().is_some() && query.volume().is_some()
}

fn is_placed(query: &Query) -> bool
    ensures { result ≡ is_placed query.now }
{
    query.days().is_some() || query.volume().is_some()
}

// Returns the tally of the rows of the same titles whose days are covered and whose volumes are not, if the query names
// both.
fn also_beside<'a>(
    alloc: Global,
    context: &Context<'a>,
    lookup: &'a Lookup<'a>,
    shares: Shares,
) -> Result<Tally<'a>, AllocError>
    requires shares { shares ≡ shares_in lookup.now (sited_in context.now) }
    requires small { shares.rows ≤ 10000 }
    ensures { IfOk result (λ tally. tally
        ≡ with_releases no_hits (also_beside lookup.now (sited_in context.now))) }
{
    if has_both(lookup.query()) {
        tally_by(alloc, context, &Search::dated(lookup), shares)
    } else {
        Ok(Tally::new(alloc))
    }
}

// Returns the tally of the other rows of the same titles, whatever the date and the volume are, if the query names a
// date or a volume and has no hits itself.
fn others_beside<'a>(
    alloc: Global,
    context: &Context<'a>,
    lookup: &'a Lookup<'a>,
    shares: Shares,
    count: usize,
) -> Result<Tally<'a>, AllocError>
    requires shares { shares ≡ shares_in lookup.now (sited_in context.now) }
    requires small { shares.rows ≤ 10000 }
    ensures { IfOk result (λ tally. tally
        ≡ with_releases no_hits (others_beside count lookup.now (sited_in context.now))) }
{
    if count == 0 && is_placed(lookup.query()) {
        tally_by(alloc, context, &Search::others(lookup), shares)
    } else {
        Ok(Tally::new(alloc))
    }
}

// Writes the hits as text.
fn put_texts(
    alloc: Global,
    out: &mut Vec<u8>,
    context: &Context<'_>,
    lookup: &Lookup<'_>,
    shares: Shares,
) -> Result<(), AllocError>
    requires { shares.rows ≤ 10000 }
    ensures { OnOk result (out.new.items
        ≡ out.old.items
        ++ texts_from shares context.now.site.library context.now.actives.today lookup.now no_hits
        context.now.actives.actives) }
{
    let mut tally = Tally::new(alloc);
    let search = Search::of(lookup);
    let mut links = search.links(alloc, context.library());
    for active in context.actives {
        let release = LibraryRelease {
            site: context.library(),
            today: context.today,
            name: active.name(),
            holdings: active.holdings(),
        };
        let (search, links) = (&search, &mut links);
        put_release(alloc, out, &mut tally, &release, search, links, shares)?;
    }
    Ok(())
}

// Writes the facts about a query, its hits of highest rank, and the titles whose date is covered, as JSON.
fn put_json(
    alloc: Global,
    out: &mut Vec<u8>,
    query: &ReceivedOpenUrl<'_>,
    context: &Context<'_>,
    lookup: &Lookup<'_>,
    shares: Shares,
    hits: &Tally<'_>,
) -> Result<(), AllocError>
    requires shares { shares ≡ shares_in lookup.now (sited_in context.now) }
    requires small { shares.rows ≤ 10000 }
    requires hits { hits.now ≡ with_releases no_hits (found_among lookup.now (sited_in context.now)) }
    ensures { OnOk result (out.new.items
        ≡ out.old.items ++ answers_body Json query.now.text.now lookup.now (sited_in context.now)) }
{
    let ask = query.ask(alloc)?;
    let also = also_beside(alloc, context, lookup, shares)?;
    put_answer_json(out, &ask, b"", hits, &also)
}

// Writes the same as a page. Without a hit, the page shows the other rows of the same titles too.
fn put_page<'a>(
    alloc: Global,
    out: &mut Vec<u8>,
    query: &ReceivedOpenUrl<'_>,
    context: &Context<'a>,
    lookup: &'a Lookup<'a>,
    shares: Shares,
    hits: Tally<'a>,
) -> Result<(), AllocError>
    requires shares { shares ≡ shares_in lookup.now (sited_in context.now) }
    requires small { shares.rows ≤ 10000 }
    requires hits { hits ≡ with_releases no_hits (found_among lookup.now (sited_in context.now)) }
    ensures { OnOk result (out.new.items
        ≡ out.old.items ++ answers_body Html query.now.text.now lookup.now (sited_in context.now)) }
{
    let ask = query.ask(alloc)?;
    let also = also_beside(alloc, context, lookup, shares)?;
    let others = others_beside(alloc, context, lookup, shares, hits.count())?;
    let found = Tallies { hits, also, others };
    put_hits_page(alloc, out, context.library(), query.pairs(), &ask, &found)
}

// Writes the hits of highest rank and the links of the library as the reply of SFX.
fn put_targets(
    out: &mut Vec<u8>,
    query: &ReceivedOpenUrl<'_>,
    context: &Context<'_>,
    lookup: &Lookup<'_>,
    hits: &Tally<'_>,
) -> Result<(), AllocError>
    requires { hits.now ≡ with_releases no_hits (found_among lookup.now (sited_in context.now)) }
    ensures { OnOk result (out.new.items
        ≡ out.old.items ++ answers_body Sfx query.now.text.now lookup.now (sited_in context.now)) }
{
    let options = sfx_options_in(query.text);
    put_sfx(out, options, context.library(), hits, &lookup.cited(b""))
}

// Writes the hits of a page, and the same other rows, as a fragment for a page of another site.
fn put_fragment<'a>(
    alloc: Global,
    out: &mut Vec<u8>,
    query: &ReceivedOpenUrl<'_>,
    context: &Context<'a>,
    lookup: &'a Lookup<'a>,
    shares: Shares,
    hits: Tally<'a>,
) -> Result<(), AllocError>
    requires shares { shares ≡ shares_in lookup.now (sited_in context.now) }
    requires small { shares.rows ≤ 10000 }
    requires hits { hits ≡ with_releases no_hits (found_among lookup.now (sited_in context.now)) }
    ensures { OnOk result (out.new.items
        ≡ out.old.items ++ answers_body Fragment query.now.text.now lookup.now (sited_in context.now)) }
{
    let ask = query.ask(alloc)?;
    let also = also_beside(alloc, context, lookup, shares)?;
    let others = others_beside(alloc, context, lookup, shares, hits.count())?;
    let found = Tallies { hits, also, others };
    put_hits_fragment(alloc, out, context.library(), query.pairs(), &ask, &found)
}

/// Writes the answer of the given releases to a query, from the tally of its hits: the hits as text, or what it asks
/// and the hits of highest rank as JSON or as a page.
pub(crate) fn put_counted<'a>(
    alloc: Global,
    out: &mut Vec<u8>,
    query: &ReceivedOpenUrl<'_>,
    context: &Context<'a>,
    lookup: &'a Lookup<'a>,
    shares: Shares,
    hits: Tally<'a>,
) -> Result<(), AllocError>
    requires shares { shares ≡ shares_in lookup.now (sited_in context.now) }
    requires small { shares.rows ≤ 10000 }
    requires hits { hits ≡ with_releases no_hits (found_among lookup.now (sited_in context.now)) }
    ensures { OnOk result (out.new.items
        ≡ out.old.items
        ++ answers_body query.now.representation query.now.text.now lookup.now (sited_in context.now)) }
{
    match query.representation {
        Representation::Text => put_texts(alloc, out, context, lookup, shares),
        Representation::Json => put_json(alloc, out, query, context, lookup, shares, &hits),
        Representation::Html => put_page(alloc, out, query, context, lookup, shares, hits),
        Representation::Fragment => put_fragment(alloc, out, query, context, lookup, shares, hits),
        Representation::Sfx => put_targets(out, query, context, lookup, &hits),
    }
}

/// Writes the same. Text is written hit by hit, so that they are not counted before.
pub(crate) fn put_answer(
    alloc: Global,
    out: &mut Vec<u8>,
    query: &ReceivedOpenUrl<'_>,
    context: &Context<'_>,
    lookup: &Lookup<'_>,
) -> Result<(), AllocError>
    ensures { OnOk result (out.new.items
        ≡ out.old.items
        ++ answers_body query.now.representation query.now.text.now lookup.now (sited_in context.now)) }
{
    let shares = shares_among(alloc, context, lookup)?;
    match query.representation {
        Representation::Text => put_texts(alloc, out, context, lookup, shares),
        _ => {
            let hits = tally_among(alloc, context, lookup, shares)?;
            put_counted(alloc, out, query, context, lookup, shares, hits)
        }
    }
}
