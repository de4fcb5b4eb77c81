//! Writing the OpenURL 1.0 query of what is looked up (`application/x-www-form-urlencoded`).
ghost use Rattle.std.specs.Prelude.{◌≡◌, ◌++◌, IfOk, OnOk, codes, map, option_copied};
ghost use Rattle.form_urlencoded.specs.Form.{append_pair, byte_serialize, extend_pairs};
ghost use Rattle.feed_openurl.specs.Written.{date_pairs, volume_pairs, with_key, written_of};

use feed_identifiers::{Isbn, Issn};
use form_urlencoded::byte_serialize;
use std::alloc::{AllocError, Global};

// Appends a text, escaped.
fn push_text(out: &mut Vec<u8>, text: &[u8]) -> Result<(), AllocError>
    ensures { OnOk result (out.new.items ≡ out.old.items ++ byte_serialize text.now) }
{
    for piece in byte_serialize(text) {
        out.extend_from_slice(piece.as_bytes())?;
    }
    Ok(())
}

// Appends a pair, with `&` before it unless it is the first.
fn push_pair(out: &mut Vec<u8>, key: &str, value: &[u8]) -> Result<(), AllocError>
    ensures { OnOk result (out.new.items ≡ append_pair out.old.items key.now value.now) }
{
    if !out.is_empty() {
        out.push(b'&')?;
    }
    push_text(out, key.as_bytes())?;
    out.push(b'=')?;
    push_text(out, value)
}

// Appends a pair for each ISSN.
fn push_issns(out: &mut Vec<u8>, issns: &[Issn]) -> Result<(), AllocError>
    ensures { OnOk result (out.new.items ≡ extend_pairs out.old.items (map (with_key (codes "rft.issn")) issns.now)) }
{
    for issn in issns {
        push_pair(out, "rft.issn", &issn.text())?;
    }
    Ok(())
}

// Appends a pair for each ISBN.
fn push_isbns(out: &mut Vec<u8>, isbns: &[Isbn]) -> Result<(), AllocError>
    ensures { OnOk result (out.new.items ≡ extend_pairs out.old.items (map (with_key (codes "rft.isbn")) isbns.now)) }
{
    for isbn in isbns {
        push_pair(out, "rft.isbn", &isbn.text())?;
    }
    Ok(())
}

// Appends a pair for the date, if there is one.
fn push_date(out: &mut Vec<u8>, date: Option<&[u8]>) -> Result<(), AllocError>
    ensures { OnOk result (out.new.items ≡ extend_pairs out.old.items (date_pairs (option_copied date.entry))) }
{
    match date {
        Some(date) => push_pair(out, "rft.date", date),
        None => Ok(()),
    }
}

// Appends a pair for the volume, if there is one.
fn push_volume(out: &mut Vec<u8>, volume: Option<&[u8]>) -> Result<(), AllocError>
    ensures { OnOk result (out.new.items ≡ extend_pairs out.old.items (volume_pairs (option_copied volume.entry))) }
{
    match volume {
        Some(volume) => push_pair(out, "rft.volume", volume),
        None => Ok(()),
    }
}

/// Returns the query for these identifiers, this date and this volume. It names the version, and no format.
#[tactic(auto, using(crate::proofs::Sizes::written_steps))]
pub(crate) fn write_query(
    alloc: Global,
    issns: &[Issn],
    isbns: &[Isbn],
    date: Option<&[u8]>,
    volume: Option<&[u8]>,
) -> Result<Vec<u8>, AllocError>
    ensures { IfOk result (λ text. text.items
        ≡ written_of issns.now isbns.now (option_copied date.entry) (option_copied volume.entry)) }
{
    let mut out = Vec::new(alloc);
    push_pair(&mut out, "url_ver", b"Z39.88-2004")?;
    push_issns(&mut out, issns)?;
    push_isbns(&mut out, isbns)?;
    push_date(&mut out, date)?;
    push_volume(&mut out, volume)?;
    Ok(out)
}
