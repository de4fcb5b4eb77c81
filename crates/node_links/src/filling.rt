//! Fills templates: each name in braces is replaced by the part of a citation.
ghost use Rattle.std.specs.Prelude.{◌≡◌, ◌+◌, ◌++◌, ◌∷◌, ◌&&◌, ◌||◌, [], false, true, IfOk, List, ℕ, OnOk, count_by};
ghost use Rattle.std.specs.Prelude.{if◌then◌else◌, option_map};
ghost use Rattle.std.specs.List.{list_all};
ghost use Rattle.node_links.specs.Articles.{gives_others, is_given_or_row, is_row_name, row_names};
ghost use Rattle.node_links.specs.Requests.{filled, filled_from, if_link, is_given, names_from, part_text};

use crate::cited::{CitedTitle, part_of, row_part};
use node_site::{Field, encoded, is_link};
use std::alloc::{AllocError, Global};

/// A link that is being made, whether all its parts but that of a row are given so far, how often it has the part of a
/// row, and the name that was read in an open brace.
#[derive(Drop)]
pub(crate) struct Filling {
    pub(crate) link: Vec<u8>,
    pub(crate) is_whole: bool,
    pub(crate) row_names: usize,
    name: Vec<u8>,
    is_open: bool,
}

/// Returns whether a part of a template is given.
pub(crate) fn is_given(part: &[u8]) -> bool
    ensures { result ≡ is_given part.now }
{
    match part {
        [] => false,
        [_, ..] => true,
    }
}

// Returns whether a name is that of the `title_id` of a row.
fn is_row_name(name: &[u8]) -> bool
    ensures { result ≡ is_row_name name.now }
{
    match Field::named(name) {
        Some(Field::TitleId) => true,
        Some(_) | None => false,
    }
}

impl Filling {
    fn new(alloc: Global) -> Filling
        ensures link { result.link.items ≡ [] }
        ensures whole { result.is_whole ≡ true }
        ensures row { result.row_names ≡ 0 }
        ensures name { result.name.items ≡ [] }
        ensures closed { result.is_open ≡ false }
    {
        Filling {
            link: Vec::new(alloc),
            is_whole: true,
            row_names: 0,
            name: Vec::new(alloc),
            is_open: false,
        }
    }

    // Adds the part whose name is in the brace, which ends.
    #[tactic(auto, unfolding(crate::specs::Requests::part_text))]
    fn close(&mut self, alloc: Global, cited: &CitedTitle<'_>) -> Result<(), AllocError>
        ensures link { OnOk result (self.new.link.items
            ≡ self.old.link.items ++ part_text cited.now self.old.name.items) }
        ensures whole { OnOk result (self.new.is_whole
            ≡ (self.old.is_whole && is_given_or_row cited.now self.old.name.items)) }
        ensures row { OnOk result (self.new.row_names
            ≡ self.old.row_names + (if is_row_name self.old.name.items then 1 else 0)) }
        ensures name { OnOk result (self.new.name.items ≡ []) }
        ensures closed { OnOk result (self.new.is_open ≡ false) }
    {
        let part = part_of(alloc, cited, &self.name)?;
        let text = encoded(alloc, &part)?;
        self.link.extend_from_slice(text.as_bytes())?;
        if is_row_name(&self.name) {
            let Some(count) = self.row_names.checked_add(1) else {
                return Err(AllocError);
            };
            self.row_names = count;
        } else {
            self.is_whole = self.is_whole && is_given(&part);
        }
        self.name.clear();
        self.is_open = false;
        Ok(())
    }

    // Adds a byte of the template.
    #[tactic(auto, using(crate::proofs::Fillings::and_assoc))]
    fn add(&mut self, alloc: Global, cited: &CitedTitle<'_>, byte: u8) -> Result<(), AllocError>
        ensures link { OnOk result ((rest : List ℕ) →
            self.new.link.items ++ filled_from cited.now self.new.is_open self.new.name.items rest
            ≡ self.old.link.items ++ filled_from cited.now self.old.is_open self.old.name.items (byte ∷ rest)) }
        ensures whole { OnOk result ((rest : List ℕ) →
            (self.new.is_whole
            && list_all (is_given_or_row cited.now) (names_from self.new.is_open self.new.name.items rest))
            ≡ (self.old.is_whole
            && list_all (is_given_or_row cited.now) (names_from self.old.is_open self.old.name.items (byte ∷ rest)))) }
        ensures row { OnOk result ((rest : List ℕ) →
            self.new.row_names + count_by is_row_name (names_from self.new.is_open self.new.name.items rest)
            ≡ self.old.row_names
            + count_by is_row_name (names_from self.old.is_open self.old.name.items (byte ∷ rest))) }
    {
        if self.is_open {
            if byte == b'}' {
                return self.close(alloc, cited);
            }
            return Ok(self.name.push(byte)?);
        }
        if byte == b'{' {
            self.name.clear();
            self.is_open = true;
            return Ok(());
        }
        Ok(self.link.push(byte)?)
    }

    /// Fills a template.
    #[tactic(auto, using(crate::proofs::Fillings::and_true))]
    pub(crate) fn of(
        alloc: Global,
        cited: &CitedTitle<'_>,
        template: &[u8],
    ) -> Result<Filling, AllocError>
        ensures link { IfOk result (λ filling. filling.link.items ≡ filled cited.now template.now) }
        ensures whole { IfOk result (λ filling. filling.is_whole ≡ gives_others cited.now template.now) }
        ensures row { IfOk result (λ filling. filling.row_names ≡ row_names template.now) }
    {
        let mut filling = Filling::new(alloc);
        for byte in template {
            filling.add(alloc, cited, *byte)?;
        }
        Ok(filling)
    }
}

impl Filling {
    ghost use Rattle.std.specs.Prelude.{◌==◌, Some, None};
    ghost use Rattle.node_links.specs.Articles.{row_part};

    /// Returns the address that was made, if all its parts are given, and that of a row with this `title_id` if it has
    /// one.
    pub(crate) fn address(self, title_id: &[u8]) -> Option<Vec<u8>>
        ensures { option_map (λ text. text.items) result
            ≡ (if self.is_whole && ((self.row_names == 0) || is_given (row_part title_id.now))
            then Some self.link.items else None) }
    {
        if self.is_whole && (self.row_names == 0 || is_given(row_part(title_id))) {
            Some(self.link)
        } else {
            None
        }
    }
}

/// Returns a text, if it is safe to link to.
pub(crate) fn if_link(link: Vec<u8>) -> Option<Vec<u8>>
    ensures { option_map (λ link. link.items) result ≡ if_link link.items }
{
    if is_link(&link) { Some(link) } else { None }
}
