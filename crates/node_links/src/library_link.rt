//! The links of a library beside the hits: to its forms and its catalogue.
ghost use Rattle.std.specs.Prelude.{◌≡◌, ◌++◌, [], IfOk, OnOk, option_map};
ghost use Rattle.std.specs.List.{cons_option};
ghost use Rattle.toml.specs.View.{array_view, table_view, view};
ghost use Rattle.toml.specs.Data.{as_table};
ghost use Rattle.node_links.specs.LibraryLinks.{library_links, made_link, made_links, request_rules};
ghost use Rattle.node_links.specs.Requests.{filled, if_link};
ghost use Rattle.node_site.specs.Site.{link_of, row_or, rows_of};
ghost use Rattle.node_site.specs.Texts.{text_of};
ghost use Rattle.node_site.specs.declared.text_table.Text.TheVariants.{Request};

use crate::cited::CitedTitle;
use crate::filling::{Filling, if_link};
use node_site::{LinkOccasion, LinkUse, SearchOutcome, SiteFile, Text, text_of, text_or_empty};
use std::alloc::{AllocError, Global};
use std::marker::Model;
use toml::value::Array;
use toml::{Table, Value};

/// A link of a library for a citation.
#[derive(Drop)]
pub struct LibraryLink<'a> {
    label: &'a [u8],
    address: Vec<u8>,
}

impl<'a> Model for LibraryLink<'a> {
    ghost use Rattle.node_links.specs.LibraryLinks.{LibraryLinkValue};

    ghost Value = { LibraryLinkValue };

    ghost view = { λ l. record { label = l.label.now; address = l.address.items } };
}

impl<'a> LibraryLink<'a> {
    /// Returns the text that readers see.
    pub fn label(&self) -> &'a [u8]
        ensures { result.now ≡ self.now.label }
    {
        self.label
    }

    /// Returns the address to which the link leads.
    pub fn address(&self) -> &[u8]
        ensures { result.now ≡ self.now.address }
    {
        &self.address
    }
}

// A link of a site file: what readers see, its address with names in braces, and when it is shown.
#[derive(Drop)]
struct LinkRule<'a> {
    label: &'a [u8],
    address: &'a [u8],
    occasion: LinkOccasion,
}

impl<'a> Model for LinkRule<'a> {
    ghost use Rattle.node_site.specs.Site.{LinkRuleValue};

    ghost Value = { LinkRuleValue };

    ghost view = { λ r. record { label = r.label.now; address = r.address.now; occasion = r.occasion } };
}

fn rule_of(table: &Table) -> LinkRule<'_>
    ensures { result ≡ link_of (table_view table.now) }
{
    LinkRule {
        label: text_or_empty("label", table),
        address: text_or_empty("address", table),
        occasion: LinkOccasion::of(text_or_empty("when", table)),
    }
}

// The use of the links, the outcome of a search, and the citation that it was for.
#[derive(Clone, Copy)]
struct Asked<'c, 'd> {
    usage: LinkUse,
    outcome: SearchOutcome,
    cited: &'c CitedTitle<'d>,
}

fn filled_link(
    alloc: Global,
    cited: &CitedTitle<'_>,
    address: &[u8],
) -> Result<Option<Vec<u8>>, AllocError>
    ensures { IfOk result (λ link. option_map (λ text. text.items) link ≡ if_link (filled cited.now address.now)) }
{
    let filling = Filling::of(alloc, cited, address)?;
    Ok(if_link(filling.link))
}

fn made_link<'a>(
    alloc: Global,
    asked: &Asked<'_, '_>,
    rule: &LinkRule<'a>,
) -> Result<Option<LibraryLink<'a>>, AllocError>
    ensures { IfOk result (λ link. link
        ≡ made_link asked.now.usage asked.now.outcome asked.now.cited.now rule.now) }
{
    if !rule.occasion.is_used(asked.usage, asked.outcome) {
        return Ok(None);
    }
    match filled_link(alloc, asked.cited, rule.address)? {
        Some(address) => Ok(Some(LibraryLink {
            label: rule.label,
            address,
        })),
        None => Ok(None),
    }
}

// Adds the link of a rule, if it is used.
fn put_link<'a>(
    alloc: Global,
    links: &mut Vec<LibraryLink<'a>>,
    asked: &Asked<'_, '_>,
    rule: &LinkRule<'a>,
) -> Result<(), AllocError>
    ensures { OnOk result (links.new.items
        ≡ links.old.items ++ cons_option
        (made_link asked.now.usage asked.now.outcome asked.now.cited.now rule.now) []) }
{
    match made_link(alloc, asked, rule)? {
        Some(link) => Ok(links.push(link)?),
        None => Ok(()),
    }
}

fn put_row<'a>(
    alloc: Global,
    links: &mut Vec<LibraryLink<'a>>,
    asked: &Asked<'_, '_>,
    row: &'a Value,
) -> Result<(), AllocError>
    ensures { OnOk result (links.new.items
        ≡ links.old.items ++ made_links asked.now.usage asked.now.outcome asked.now.cited.now
        (row_or link_of (as_table (view row.now)) [])) }
{
    match row.as_table() {
        Some(table) => put_link(alloc, links, asked, &rule_of(table)),
        None => Ok(()),
    }
}

fn put_rows<'a>(
    alloc: Global,
    links: &mut Vec<LibraryLink<'a>>,
    asked: &Asked<'_, '_>,
    rows: &'a Array,
) -> Result<(), AllocError>
    ensures { OnOk result (links.new.items
        ≡ links.old.items ++ made_links asked.now.usage asked.now.outcome asked.now.cited.now
        (rows_of link_of (array_view rows.now))) }
{
    for index in 0..rows.len() {
        put_row(alloc, links, asked, &rows[index])?;
    }
    Ok(())
}

fn put_request<'a>(
    alloc: Global,
    links: &mut Vec<LibraryLink<'a>>,
    asked: &Asked<'_, '_>,
    site: &'a SiteFile,
) -> Result<(), AllocError>
    ensures { OnOk result (links.new.items
        ≡ links.old.items ++ made_links asked.now.usage asked.now.outcome asked.now.cited.now
        (request_rules (text_of site.now Request) site.now.request)) }
{
    match site.request() {
        Some(address) => {
            let rule = LinkRule {
                label: text_of(site, Text::Request),
                address: address.as_bytes(),
                occasion: LinkOccasion::Always,
            };
            put_link(alloc, links, asked, &rule)
        }
        None => Ok(()),
    }
}

fn put_tables<'a>(
    alloc: Global,
    links: &mut Vec<LibraryLink<'a>>,
    asked: &Asked<'_, '_>,
    site: &'a SiteFile,
) -> Result<(), AllocError>
    ensures { OnOk result (links.new.items
        ≡ links.old.items ++ made_links asked.now.usage asked.now.outcome asked.now.cited.now site.now.links) }
{
    match site.link_tables() {
        Some(rows) => put_rows(alloc, links, asked, rows),
        None => Ok(()),
    }
}

/// Returns the links of a library for a citation, in their order: to its request form, and those of the tables of its
/// site file. Each is there if it is used for the outcome of the search, and if it has at most 8,000 bytes.
///
/// # Errors
///
/// Running out of memory.
#[tactic(auto, unfolding(crate::specs::LibraryLinks::library_links))]
pub fn library_links<'a>(
    alloc: Global,
    site: &'a SiteFile,
    usage: LinkUse,
    outcome: SearchOutcome,
    cited: &CitedTitle<'_>,
) -> Result<Vec<LibraryLink<'a>>, AllocError>
    ensures { IfOk result (λ links. links.items ≡ library_links site.now usage outcome cited.now) }
{
    let asked = Asked {
        usage,
        outcome,
        cited,
    };
    let mut links = Vec::new(alloc);
    put_request(alloc, &mut links, &asked, site)?;
    put_tables(alloc, &mut links, &asked, site)?;
    Ok(links)
}
