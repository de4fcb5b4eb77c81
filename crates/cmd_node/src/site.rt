//! The site file of a library, and the holdings file beside it.
ghost use Rattle.std.specs.Prelude.{IfOk, IfSome};
ghost use Rattle.cmd_node.specs.Sites.{IsSiteRead};

use feed_console::{Console, DONE, FAILED, open_plain_file, read_front};
use feed_options::{NodeOptions, SitePath};
use node_response::Site;
use node_site::{
    HOLDINGS_LIMIT, Language, SITE_LIMIT, SiteFault, SiteFile, TEXTS, prefixes_left_open, text_of,
};
use node_site_files::{read_folder, report_holdings, report_site};
use node_sites::{NamedSite, NodeSites};
use std::alloc::{AllocError, Global};
use std::fs::File;
use std::io;
use std::io::{Read, Write};

/// Returns what the responses of a node with these options depend on beside its releases and the day: the site of each
/// host, with the site file, if there is one, and the holdings file that it names. Otherwise reports what is wrong and
/// returns the exit status.
pub fn read_sites<O: Write, F: Write + Drop>(
    options: NodeOptions<'_>,
    console: &mut Console<'_, O, F>,
) -> Result<NodeSites, u8> {
    let alloc = console.rt.alloc();
    let site = match options.site {
        SitePath::Folder(folder) => return read_folder(folder, options, console),
        SitePath::File(path) => read_site(path, options, console)?,
        SitePath::None => match site_in(alloc, options, &mut io::empty()) {
            Ok(Ok(site)) => site,
            _ => return Err(console.faults.report("Memory", FAILED)),
        },
    };
    let name = Vec::new(alloc);
    match NodeSites::of_all(alloc, NamedSite { site, name }) {
        Ok(sites) => Ok(sites),
        Err(_) => Err(console.faults.report("Memory", FAILED)),
    }
}

// Reads a site file, and the holdings file that it names.
fn read_site<O: Write, F: Write + Drop>(
    path: &str,
    options: NodeOptions<'_>,
    console: &mut Console<'_, O, F>,
) -> Result<Site, u8> {
    let mut file = open_plain_file(path, console)?;
    let mut site = site_of(path, options, &mut file, console)?;
    let Some(list) = holdings_path(path, &site, console)? else {
        return Ok(site);
    };
    let mut file = open_plain_file(list.as_str(), console)?;
    add_holdings(list.as_str(), &mut site, &mut file, console)?;
    Ok(site)
}

// Returns the site of an open file, or reports what is wrong with it and returns the exit status.
fn site_of<O: Write, F: Write + Drop>(
    path: &str,
    options: NodeOptions<'_>,
    file: &mut File,
    console: &mut Console<'_, O, F>,
) -> Result<Site, u8> {
    match site_in(console.rt.alloc(), options, file) {
        Ok(Ok(site)) => Ok(site),
        Ok(Err(fault)) => Err(report_site(path, None, fault, console)),
        Err(error) => Err(console.faults.report_read(path, error)),
    }
}

// Returns the path of the holdings file that a site file names, which is beside it.
fn holdings_path<O: Write, F: Write + Drop>(
    path: &str,
    site: &Site,
    console: &mut Console<'_, O, F>,
) -> Result<Option<String>, u8> {
    let Some(name) = site.library().holdings() else {
        return Ok(None);
    };
    match beside(console.rt.alloc(), path, name) {
        Ok(list) => Ok(Some(list)),
        Err(_) => Err(console.faults.report("Memory", FAILED)),
    }
}

// Returns the path of a file beside another one.
fn beside(alloc: Global, path: &str, name: &str) -> Result<String, AllocError> {
    match path.rsplit_once('/') {
        Some((folder, _)) => format!(in alloc; "{folder}/{name}"),
        None => String::from_str(alloc, name),
    }
}

// Reads the holdings file of a site, or reports what is wrong with it and returns the exit status.
fn add_holdings<O: Write, F: Write + Drop>(
    path: &str,
    site: &mut Site,
    file: &mut File,
    console: &mut Console<'_, O, F>,
) -> Result<(), u8> {
    let alloc = console.rt.alloc();
    match read_front(alloc, file, HOLDINGS_LIMIT + 1) {
        Ok(bytes) => match site.read_holdings(alloc, bytes) {
            Ok(()) => Ok(()),
            Err(fault) => Err(report_holdings(path, None, fault, console)),
        },
        Err(error) => Err(console.faults.report_read(path, error)),
    }
}

// Returns the site that is read from here.
fn site_in<R: Read>(
    alloc: Global,
    options: NodeOptions<'_>,
    file: &mut R,
) -> io::Result<Result<Site, SiteFault>>
    ensures { IfSome (R.remaining file.old) (λ given.
        IfOk result (IsSiteRead options.entry.version.now options.entry.max_age given)) }
{
    let bytes = read_front(alloc, file, SITE_LIMIT + 1)?;
    let version = options.version.as_bytes();
    Ok(Site::read(alloc, version, options.max_age, bytes))
}

/// Reports settings of site files that are probably mistakes. The node runs with them.
pub fn note_doubts<O: Write, F: Write + Drop>(sites: &NodeSites, console: &mut Console<'_, O, F>) {
    for named in sites.list() {
        let library = named.site.library();
        note_open_prefixes(library, console);
        note_language(library, console);
        note_joined_prefix(library, console);
    }
}

// Reports each prefix, of a proxy or a platform, behind which a list can add parameters: one that ends in `=` and gets
// the address as it is.
fn note_open_prefixes<O: Write, F: Write + Drop>(
    library: &SiteFile,
    console: &mut Console<'_, O, F>,
) {
    let Ok(prefixes) = prefixes_left_open(console.rt.alloc(), library) else {
        return;
    };
    for prefix in &prefixes {
        let _ = console.faults.report_with(
            "Prefix",
            prefix.text(),
            "addresses are not encoded behind it, so a list can add parameters: set encode if the proxy takes that",
            DONE,
        );
    }
}

// Notes a language whose pages are in English, since neither this program nor the site file has texts in it.
fn note_language<O: Write, F: Write + Drop>(library: &SiteFile, console: &mut Console<'_, O, F>) {
    let Some(tag) = library.language() else {
        return;
    };
    let primary = tag.split('-').next().unwrap_or(tag);
    if !primary.eq_ignore_ascii_case("en") && is_english(library) {
        let hint = format_args!("{tag}: the pages are in English");
        console.faults.note("library.language", hint);
    }
}

// Returns whether each text of the pages is the English one.
fn is_english(library: &SiteFile) -> bool {
    TEXTS.iter().all(|text| text_of(library, *text) == text.words(Language::English).as_bytes())
}

// Notes a prefix of a proxy to which addresses are joined without a sign between.
fn note_joined_prefix<O: Write, F: Write + Drop>(
    library: &SiteFile,
    console: &mut Console<'_, O, F>,
) {
    let Some(prefix) = library.prefix() else {
        return;
    };
    if !prefix.contains("{url}") && !prefix.ends_with(['=', '/', '?', '&', '#']) {
        let hint = format_args!(
            "addresses follow it, as in {prefix}https://a.example/: end it in = or /, or write {{url}} in it"
        );
        console.faults.note("proxy.prefix", hint);
    }
}
