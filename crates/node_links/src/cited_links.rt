//! The links of a site to the rows of an answer and to the article that its query cites.
ghost use Rattle.std.specs.Prelude.{◌≡◌, [], IfOk, length, option_map};
ghost use Rattle.node_links.specs.Articles.{IsSizeOf, article_link, with_title_id};
ghost use Rattle.node_site.specs.Proxies.{prefix_for};

use crate::article_sizes::{ArticleSizes, LinkSize};
use crate::cited::CitedTitle;
use crate::filling::Filling;
use crate::site_links::SiteLinks;
use node_site::{Prefix, SiteFile, article_template, encodes, is_direct, through};
use std::alloc::{AllocError, Global};
use std::marker::Model;

/// The links of a site, and those to the article that a query cites. A template for articles is filled once for all
/// rows, without their `title_id`.
#[derive(Drop)]
pub struct CitedLinks<'s> {
    links: SiteLinks<'s>,
    cited: CitedTitle<'s>,
    sizes: ArticleSizes,
}

impl<'s> Model for CitedLinks<'s> {
    ghost use Rattle.std.specs.Prelude.{◌≡◌, []};
    ghost use Rattle.node_links.specs.Articles.{AreMade, CitedLinksValue};

    ghost Value = { CitedLinksValue };

    ghost view = { λ l. record { site = l.links; cited = l.cited } };

    ghost invariant = { λ l. (l.cited.title_id ≡ []) × AreMade l.links l.cited l.sizes };
}

impl<'s> CitedLinks<'s> {
    /// Returns the links of a site for a citation, which has the `title_id` of no row.
    pub fn new(alloc: Global, site: &'s SiteFile, cited: CitedTitle<'s>) -> CitedLinks<'s>
        requires { cited.title_id ≡ [] }
        ensures site { result.site ≡ site.now }
        ensures cited { result.cited ≡ cited.entry }
    {
        CitedLinks {
            links: SiteLinks::new(site),
            cited,
            sizes: ArticleSizes::new(alloc),
        }
    }

    /// Returns the prefix of the link to a target, if the link goes through a proxy.
    ///
    /// # Errors
    ///
    /// Running out of memory.
    pub fn prefix_for(
        &mut self,
        alloc: Global,
        target: &[u8],
        is_direct: bool,
    ) -> Result<Option<Prefix<'s>>, AllocError>
        ensures same { self.new ≡ self.old }
        ensures prefix { IfOk result (λ prefix. prefix ≡ prefix_for self.old.site target.now is_direct) }
    {
        self.links.prefix_for(alloc, target, is_direct)
    }

    // Returns the size of the links to the article by a template. The template is filled if its size is not kept.
    fn size_of(
        &mut self,
        alloc: Global,
        template: &[u8],
        is_direct: bool,
    ) -> Result<LinkSize, AllocError>
        ensures same { self.new ≡ self.old }
        ensures size { IfOk result (IsSizeOf self.old.site self.old.cited is_direct template.now) }
    {
        if let Some(size) = self.sizes.find(template, is_direct) {
            return Ok(size);
        }
        let filling = Filling::of(alloc, &self.cited, template)?;
        let prefix = self.links.prefix_for(alloc, &filling.link, is_direct)?;
        let link = through(alloc, &prefix, &filling.link)?;
        let size = LinkSize {
            is_whole: filling.is_whole,
            row_names: filling.row_names,
            len: link.len(),
            is_encoded: encodes(&prefix),
        };
        self.sizes.keep(alloc, template, is_direct, size)?;
        Ok(size)
    }

    /// Returns how many bytes the link to the article has in a row with this `title_id`, if the row has one
    /// ([`article_link`](crate::article_link)). Does not write the link.
    ///
    /// # Errors
    ///
    /// Running out of memory.
    #[tactic(auto, unfolding(crate::specs::Articles::article_link))]
    pub fn article_len(
        &mut self,
        alloc: Global,
        id: &[u8],
        url: &[u8],
        is_free: bool,
        title_id: &[u8],
    ) -> Result<Option<usize>, AllocError>
        ensures same { self.new ≡ self.old }
        ensures len { IfOk result (λ len. len
            ≡ option_map length
            (article_link self.old.site id.now url.now is_free (with_title_id title_id.now self.old.cited))) }
    {
        let site = self.links.site();
        let Some(template) = article_template(site, id, url) else {
            return Ok(None);
        };
        site.texts_are_valid();
        let is_direct = is_direct(site, id, is_free);
        let size = self.size_of(alloc, template.as_bytes(), is_direct)?;
        size.len_for(alloc, title_id)
    }
}
