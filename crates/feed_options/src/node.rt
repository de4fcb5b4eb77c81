//! The options of `node`.

/// Where a node listens, its limits, its files, and what it reports of itself.
#[derive(Clone, Copy)]
pub struct NodeOptions<'a> {
    /// The address to listen at.
    pub addr: &'a str,
    /// The most clients that are answered at a time.
    pub clients: usize,
    /// The milliseconds that each step of a connection may take.
    pub limit: u64,
    /// The milliseconds that a connection may wait between two requests.
    pub idle: u64,
    /// For how many seconds a cache may use an answer without asking again, or 0.
    pub max_age: u32,
    /// The version of the program, with what it was proved with on the lines below it.
    pub version: &'a str,
    pub log: LogOptions,
    /// Whether the node ends once it has opened all that it needs.
    pub is_check: bool,
    pub site: SitePath<'a>,
    /// The path of the file with the token that authorizes a fetch, and a reload of the site files.
    pub token_file: Option<&'a str>,
    /// The path of the file with the packages that readers wait for.
    pub wanted: Option<&'a str>,
    pub source: Option<Source<'a>>,
}

impl<'a> NodeOptions<'a> {
    /// Returns the number of the version.
    pub fn version_number(&self) -> &'a str {
        match self.version.split_once('\n') {
            Some((number, _)) => number,
            None => self.version,
        }
    }
}

/// Where the site files of a node are.
#[derive(Clone, Copy)]
pub enum SitePath<'a> {
    /// It has none.
    None,
    /// The path of one file, for all hosts.
    File(&'a str),
    /// The path of a folder with a file for each host.
    Folder(&'a str),
}

/// The fields that the log of a node shows, the clients that may have its reports, and the series of its metrics.
#[derive(Clone, Copy)]
pub struct LogOptions {
    /// Whether a peer on the same machine is a proxy, which states the address of its client.
    pub is_forwarded: bool,
    /// Whether the log shows queries.
    pub has_queries: bool,
    /// Whether all clients may have reports of the node, and not only those on the same machine.
    pub has_open_reports: bool,
    /// Whether the metrics have a series for each package even if more than 256 have an active release.
    pub has_all_series: bool,
}

/// The server that a node fetches releases from, and the limits of its fetches.
#[derive(Clone, Copy)]
pub struct Source<'a> {
    /// The host and port.
    pub addr: &'a str,
    /// How many bytes a request asks for, 1 to 1,048,576.
    pub piece: u64,
    /// How many seconds a fetch may take.
    pub fetch_limit: u64,
    /// Whether a list may have any type.
    pub has_any_type: bool,
    /// How much of the rows of the active release a new one may lack, in percent.
    pub max_shrink: Option<u64>,
}
