//! The marks of the lists of a page.
ghost use Rattle.std.specs.Prelude.{◌≡◌};
ghost use Rattle.node_pages.specs.Lists.{list_mark};

/// Returns a value for the slot of a list that has items.
pub(crate) fn list_mark(is_empty: bool) -> &'static [u8]
    ensures { result.now ≡ list_mark is_empty }
{
    if is_empty { b"" } else { b"list" }
}
