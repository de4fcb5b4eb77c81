//! How long the links to articles are: a template is filled once for all rows of an answer, and a link is written only
//! if it is shown.
ghost use Rattle.std.specs.Prelude.{◌≡◌, Bool, true, IfOk, IfSome, List, length, option_map, ℕ};
ghost use Rattle.std.specs.Bool.{OnTrue};
ghost use Rattle.node_links.specs.Articles.{AreMade, IsSizeOf, with_title_id, row_part, template_link};
ghost use Rattle.node_site.specs.Kinds.{is_article};
ghost use Rattle.node_site.specs.Proxies.{written_target};
ghost use Rattle.node_links.specs.Requests.{CitedTitleValue, escaped};
ghost use Rattle.node_site.specs.Site.{SiteValue};
ghost use Rattle.node_site.specs.Valid.{IsSite};

use crate::cited::row_part;
use crate::filling::is_given;
use node_site::{URL_LIMIT, encoded};
use std::alloc::{AllocError, Global};

/// What the links to an article by a template have in common, whatever the row is: whether the citation has every other
/// name of the template, how often the `title_id` of the row is in it, how many bytes the link has without that, and
/// whether a proxy takes the address percent-encoded.
#[derive(Clone, Copy)]
pub(crate) struct LinkSize {
    pub(crate) is_whole: bool,
    pub(crate) row_names: usize,
    pub(crate) len: usize,
    pub(crate) is_encoded: bool,
}

/// The size of the links by a template.
#[derive(Drop)]
pub(crate) struct MadeSize {
    pub(crate) template: Vec<u8>,
    pub(crate) is_direct: bool,
    pub(crate) size: LinkSize,
}

/// The sizes of the links for a citation so far. All templates of a site have no more bytes than its file.
#[derive(Drop)]
pub(crate) struct ArticleSizes {
    pub(crate) made: Vec<MadeSize>,
}

// Returns how many bytes the part of a row has in a link.
fn written_len(alloc: Global, is_encoded: bool, part: &[u8]) -> Result<usize, AllocError>
    ensures { IfOk result (λ len. len ≡ length (written_target is_encoded (escaped part.now))) }
{
    let text = encoded(alloc, part)?;
    if is_encoded {
        let twice = encoded(alloc, text.as_bytes())?;
        Ok(twice.len())
    } else {
        Ok(text.len())
    }
}

impl LinkSize {
    /// Returns how many bytes the link for a row has, if the row has one. Does not write the link.
    pub(crate) fn len_for(self, alloc: Global, title_id: &[u8]) -> Result<Option<usize>, AllocError>
        ensures { IfOk result (λ len. (site : SiteValue) (cited : CitedTitleValue) (is_direct : Bool)
            (template : List ℕ) → IsSite site → is_article template ≡ true → IsSizeOf site cited is_direct template self
            → len ≡ option_map length (template_link site (with_title_id title_id.now cited) is_direct template)) }
    {
        if !self.is_whole {
            return Ok(None);
        }
        if self.len > URL_LIMIT {
            return Ok(None);
        }
        if self.row_names == 0 {
            return Ok(Some(self.len));
        }
        let part = row_part(title_id);
        if !is_given(part) {
            return Ok(None);
        }
        let len = written_len(alloc, self.is_encoded, part)?;
        if len > (URL_LIMIT - self.len) / self.row_names {
            return Ok(None);
        }
        Ok(Some(self.len + self.row_names * len))
    }
}

impl MadeSize {
    fn is_of(&self, template: &[u8], is_direct: bool) -> bool
        ensures { OnTrue result ((self.now.template.items ≡ template.now) × (self.now.is_direct ≡ is_direct)) }
    {
        self.is_direct == is_direct && self.template.as_slice() == template
    }
}

impl ArticleSizes {
    /// Returns no sizes, which suit each citation.
    pub(crate) fn new(alloc: Global) -> ArticleSizes
        ensures { (site : SiteValue) (cited : CitedTitleValue) → AreMade site cited result }
    {
        ArticleSizes {
            made: Vec::new(alloc),
        }
    }

    /// Returns the size of the links by a template, if it is kept.
    pub(crate) fn find(&self, template: &[u8], is_direct: bool) -> Option<LinkSize>
        ensures { IfSome result (λ size. (site : SiteValue) (cited : CitedTitleValue) → AreMade site cited self.now
            → IsSizeOf site cited is_direct template.now size) }
    {
        for place in 0..self.made.len() {
            if self.made[place].is_of(template, is_direct) {
                return Some(self.made[place].size);
            }
        }
        None
    }

    /// Keeps the size of the links by a template.
    pub(crate) fn keep(
        &mut self,
        alloc: Global,
        template: &[u8],
        is_direct: bool,
        size: LinkSize,
    ) -> Result<(), AllocError>
        ensures { (site : SiteValue) (cited : CitedTitleValue) → AreMade site cited self.old
            → IsSizeOf site cited is_direct template.now size → AreMade site cited self.new }
    {
        let template = Vec::from_slice(alloc, template)?;
        Ok(
            self.made.push(MadeSize {
                template,
                is_direct,
                size,
            })?,
        )
    }
}
