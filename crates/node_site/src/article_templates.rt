//! The templates of the links to articles, and which links never go through a proxy.
ghost use Rattle.std.specs.Prelude.{◌≡◌, option_copied};
ghost use Rattle.node_site.specs.ArticleTemplates.{article_template, package_article, platform_article};
ghost use Rattle.node_site.specs.Proxies.{is_direct, is_proxied_package};

use crate::hosts::host_of;
use crate::lookup::{switch_at, text_at};
use crate::site_file::SiteFile;

fn package_article<'a>(site: &'a SiteFile, id: &[u8]) -> Option<&'a str>
    ensures { option_copied result ≡ package_article site.now id.now }
{
    match site.package_table(id) {
        Some(table) => text_at("article", table),
        None => None,
    }
}

fn platform_article<'a>(site: &'a SiteFile, host: &[u8]) -> Option<&'a str>
    ensures { option_copied result ≡ platform_article site.now host.now }
{
    match site.platform_table(host) {
        Some(table) => text_at("article", table),
        None => None,
    }
}

/// Returns the template for the articles of a row: that of its package, or else that of the platform of its URL.
pub fn article_template<'a>(site: &'a SiteFile, id: &[u8], url: &[u8]) -> Option<&'a str>
    ensures { option_copied result ≡ article_template site.now id.now url.now }
{
    if let Some(template) = package_article(site, id) {
        return Some(template);
    }
    if site.platform_tables().is_none() {
        return None;
    }
    match host_of(url) {
        Some(host) => platform_article(site, host),
        None => None,
    }
}

fn is_proxied_package(site: &SiteFile, id: &[u8]) -> bool
    ensures { result ≡ is_proxied_package site.now id.now }
{
    match site.package_table(id) {
        Some(table) => switch_at("proxy", table).unwrap_or(true),
        None => true,
    }
}

/// Returns whether a link of a package never goes through a proxy: it is free to read, or the site file says so of the
/// package.
pub fn is_direct(site: &SiteFile, id: &[u8], is_free: bool) -> bool
    ensures { result ≡ is_direct site.now id.now is_free }
{
    is_free || !is_proxied_package(site, id)
}
