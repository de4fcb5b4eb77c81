//! The prefixes behind which a list can add parameters.
ghost use Rattle.std.specs.Prelude.{◌≡◌, ◌++◌, [], IfOk, OnOk, option_copied, option_map};
ghost use Rattle.std.specs.List.{cons_option, filter_map};
ghost use Rattle.toml.specs.View.{array_view, table_view, view};
ghost use Rattle.toml.specs.Data.{as_table};
ghost use Rattle.node_site.specs.Proxies.{is_open, open_of_platform, open_prefixes, open_text};
ghost use Rattle.node_site.specs.Site.{platform_of, row_or, rows_of};

use crate::lookup::{switch_at, text_at};
use crate::prefixes::{Prefix, ends_in};
use crate::site_file::SiteFile;
use std::alloc::{AllocError, Global};
use std::marker::Model;
use toml::value::Array;
use toml::{Table, Value};

/// A prefix that ends in `=` in front of the address and takes it as it is.
#[derive(Drop)]
pub struct OpenPrefix<'a> {
    text: &'a str,
}

impl<'a> Model for OpenPrefix<'a> {
    ghost use Rattle.std.specs.Prelude.{List, ℕ};

    ghost Value = { List ℕ };

    ghost view = { λ p. p.text.now };
}

impl<'a> OpenPrefix<'a> {
    /// Returns the prefix as the site file has it.
    pub fn text(&self) -> &'a str
        ensures { result.now ≡ self.now }
    {
        self.text
    }
}

fn is_open(prefix: &Prefix<'_>) -> bool
    ensures { result ≡ is_open prefix.now }
{
    ends_in(b"=", prefix.front) && !(prefix.is_encoded || ends_in(b"login?url=", prefix.front))
}

fn open_text(encodes: bool, text: Option<&str>) -> Option<OpenPrefix<'_>>
    ensures { result ≡ open_text encodes (option_copied text.entry) }
{
    match text {
        Some(text) => {
            if is_open(&Prefix::of(encodes, text.as_bytes())) {
                Some(OpenPrefix { text })
            } else {
                None
            }
        }
        None => None,
    }
}

fn open_in(table: &Table) -> Option<OpenPrefix<'_>>
    ensures { result ≡ open_of_platform (platform_of (table_view table.now)) }
{
    let encodes = switch_at("encode", table).unwrap_or(false);
    open_text(encodes, text_at("prefix", table))
}

fn put_open<'a>(
    prefixes: &mut Vec<OpenPrefix<'a>>,
    prefix: Option<OpenPrefix<'a>>,
) -> Result<(), AllocError>
    ensures { OnOk result (prefixes.new.items ≡ prefixes.old.items ++ cons_option prefix.entry []) }
{
    match prefix {
        Some(prefix) => Ok(prefixes.push(prefix)?),
        None => Ok(()),
    }
}

fn put_row<'a>(prefixes: &mut Vec<OpenPrefix<'a>>, row: &'a Value) -> Result<(), AllocError>
    ensures { OnOk result (prefixes.new.items
        ≡ prefixes.old.items ++ filter_map open_of_platform (row_or platform_of (as_table (view row.now)) [])) }
{
    match row.as_table() {
        Some(table) => put_open(prefixes, open_in(table)),
        None => Ok(()),
    }
}

fn put_rows<'a>(prefixes: &mut Vec<OpenPrefix<'a>>, rows: &'a Array) -> Result<(), AllocError>
    ensures { OnOk result (prefixes.new.items
        ≡ prefixes.old.items ++ filter_map open_of_platform (rows_of platform_of (array_view rows.now))) }
{
    for index in 0..rows.len() {
        put_row(prefixes, &rows[index])?;
    }
    Ok(())
}

fn put_platforms<'a>(
    prefixes: &mut Vec<OpenPrefix<'a>>,
    site: &'a SiteFile,
) -> Result<(), AllocError>
    ensures { OnOk result (prefixes.new.items
        ≡ prefixes.old.items ++ filter_map open_of_platform site.now.platforms) }
{
    match site.platform_tables() {
        Some(rows) => put_rows(prefixes, rows),
        None => Ok(()),
    }
}

/// Returns the prefixes behind which a list can add parameters, that of the proxy first: those that end in `=` in front
/// of the address and do not encode it. EZproxy takes all that follows `login?url=` as the address, so a prefix that
/// ends in that is not among them.
///
/// # Errors
///
/// Running out of memory.
pub fn prefixes_left_open(alloc: Global, site: &SiteFile) -> Result<Vec<OpenPrefix<'_>>, AllocError>
    ensures { IfOk result (λ prefixes. prefixes.items ≡ open_prefixes site.now) }
{
    let mut prefixes = Vec::new(alloc);
    put_open(&mut prefixes, open_text(site.encodes(), site.prefix()))?;
    put_platforms(&mut prefixes, site)?;
    Ok(prefixes)
}
