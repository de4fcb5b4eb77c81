//! A node: its feed, what it responds to a request, and a connection to it.
use crate::escapes::print_escaped;
use crate::fault::{HttpDriverFault, NO_MEMORY};
use crate::line::CommandLine;
use feed_answer::Today;
use feed_dates::read_date;
use feed_http_heads::{FIELD_LIMIT, HeadEnd, head_end};
use feed_keep::ListKeep;
use feed_model::{Refusal, Reply};
use feed_names::ReleaseName;
use feed_releases::{Event, Feed};
use httparse::spans::EMPTY_HEADER_SPAN;
use node_connection::{Connection, TimeLimits};
use node_request::{FetchPolicy, ReceivedRequest, fetch_request, form_length};
use node_resolver::{keep_releases, respond, respond_as_node};
use node_response::Site;
use node_site::{HoldingsFault, SiteFault, SitesFault};
use node_sites::{NamedSite, NodeSites};
use std::alloc::Global;
use test_support::Out;

/// The feed of a node over a keeper in memory, and one connection to it.
#[derive(Drop)]
pub struct DriverNode<'a> {
    pub rt: &'a HostRuntime,
    pub step: usize,
    pub connection: Connection,
    /// The length of the bodies that the connection's responder wants.
    pub wanted: usize,
    feed: Feed<ListKeep>,
    sites: NodeSites,
    /// The site of all hosts that have none of their own, as it was given.
    given: GivenSite,
    today: Today,
}

/// The parts of a site.
#[derive(Drop)]
struct GivenSite {
    version: Vec<u8>,
    max_age: u32,
    file: Vec<u8>,
}

impl<'a> DriverNode<'a> {
    pub fn new(rt: &'a HostRuntime, step: usize) -> Result<DriverNode<'a>, HttpDriverFault> {
        let feed = open_feed(rt.alloc())?;
        let given = GivenSite {
            version: Vec::from_slice(rt.alloc(), b"1.0")?,
            max_age: 0,
            file: Vec::new(rt.alloc()),
        };
        let site = given.site(rt.alloc())?;
        Ok(DriverNode {
            rt,
            step,
            connection: Connection::new(rt.alloc(), TimeLimits { step: 1, idle: 1 }),
            wanted: 0,
            feed,
            sites: sites_of(rt.alloc(), site)?,
            given,
            today: Today::epoch(),
        })
    }

    /// Takes a line of this command.
    pub fn take(
        &mut self,
        out: &mut Out<'_>,
        command: &str,
        line: CommandLine<'_>,
    ) -> Result<(), HttpDriverFault> {
        match command {
            "release" => self.release(out, line),
            "site" => self.take_site(line),
            "holdings" => self.take_holdings(line),
            "host-site" => self.take_host(line),
            "today" => self.take_today(line),
            "keep-releases" => self.keep_releases(),
            "respond" => self.respond(out, line),
            "respond-to-form" => self.respond_to_form(out, line),
            "respond-as-node" => self.respond_as_node(out, line),
            "fetch-asked" => self.fetch_request(out, line),
            "head-end" => self.head_end(out, line),
            _ => self.take_connection(out, command, line),
        }
    }

    fn release(
        &mut self,
        out: &mut Out<'_>,
        mut line: CommandLine<'_>,
    ) -> Result<(), HttpDriverFault> {
        let name = line.name(self.rt.alloc())?;
        let bytes = line.text(self.rt.alloc())?;
        offer(&mut self.feed, &name, bytes.len() as u64);
        let answer = arrive(&mut self.feed, &name, &bytes);
        print_answer(out, answer);
        Ok(())
    }

    fn take_site(&mut self, mut line: CommandLine<'_>) -> Result<(), HttpDriverFault> {
        let alloc = self.rt.alloc();
        let version = Vec::from_slice(alloc, line.word().as_bytes())?;
        let max_age = line.number().min(u64::from(u32::MAX)) as u32;
        let file = line.text(alloc)?;
        self.given = GivenSite {
            version,
            max_age,
            file,
        };
        self.sites = sites_of(alloc, self.given.site(alloc)?)?;
        Ok(())
    }

    fn take_holdings(&mut self, line: CommandLine<'_>) -> Result<(), HttpDriverFault> {
        let alloc = self.rt.alloc();
        let file = line.text(alloc)?;
        let mut site = self.given.site(alloc)?;
        match site.read_holdings(alloc, file) {
            Ok(()) => {}
            Err(HoldingsFault::Memory) => return Err(NO_MEMORY),
            Err(_) => return Err(HttpDriverFault("not a holdings file")),
        }
        self.sites = sites_of(alloc, site)?;
        Ok(())
    }

    fn take_host(&mut self, mut line: CommandLine<'_>) -> Result<(), HttpDriverFault> {
        let alloc = self.rt.alloc();
        let host = line.word().as_bytes();
        let file = line.text(alloc)?;
        let site = read_site(alloc, &self.given.version, self.given.max_age, file)?;
        match self.sites.add(alloc, host, named(alloc, site, host)?) {
            Ok(()) => Ok(()),
            Err(SitesFault::Memory) => Err(NO_MEMORY),
            Err(_) => Err(HttpDriverFault("not a host, or one that has a site")),
        }
    }

    fn take_today(&mut self, mut line: CommandLine<'_>) -> Result<(), HttpDriverFault> {
        let today = today_of(line.word());
        line.check()?;
        match today {
            Some(today) => {
                self.today = today;
                Ok(())
            }
            None => Err(HttpDriverFault("not a day: YYYY-MM-DD")),
        }
    }

    fn keep_releases(&mut self) -> Result<(), HttpDriverFault> {
        keep_releases(self.rt.alloc(), &mut self.sites, &self.today, &self.feed)?;
        Ok(())
    }

    fn respond(&self, out: &mut Out<'_>, mut line: CommandLine<'_>) -> Result<(), HttpDriverFault> {
        let keeps = line.flag("keep", "close");
        let request = line.text(self.rt.alloc())?;
        self.print_reply(out, &request, b"", keeps)
    }

    fn respond_to_form(
        &self,
        out: &mut Out<'_>,
        mut line: CommandLine<'_>,
    ) -> Result<(), HttpDriverFault> {
        let keeps = line.flag("keep", "close");
        let body = line.word().as_bytes();
        let request = line.text(self.rt.alloc())?;
        out.labelled("length ", form_length_of(&request));
        out.line("");
        self.print_reply(out, &request, body, keeps)
    }

    fn print_reply(
        &self,
        out: &mut Out<'_>,
        request: &[u8],
        body: &[u8],
        keeps: bool,
    ) -> Result<(), HttpDriverFault> {
        let mut headers = [EMPTY_HEADER_SPAN; FIELD_LIMIT];
        let received = ReceivedRequest::parse(request, &mut headers);
        let Some(named) = self.sites.named(None) else {
            return Err(HttpDriverFault("there is no site"));
        };
        let reply = respond(
            self.rt.alloc(),
            &received,
            body,
            keeps,
            &named.site,
            &self.today,
            &self.feed,
        )?;
        print_escaped(out, reply.bytes());
        Ok(())
    }

    fn respond_as_node(
        &self,
        out: &mut Out<'_>,
        mut line: CommandLine<'_>,
    ) -> Result<(), HttpDriverFault> {
        let token = token_of(line.word());
        let is_busy = line.flag("busy", "free");
        let keeps = line.flag("keep", "close");
        let request = line.text(self.rt.alloc())?;
        let policy = FetchPolicy {
            token,
            is_busy,
            is_reloading: false,
        };
        self.print_node_response(out, &request, keeps, &policy)
    }

    fn print_node_response(
        &self,
        out: &mut Out<'_>,
        request: &[u8],
        keeps: bool,
        policy: &FetchPolicy<'_>,
    ) -> Result<(), HttpDriverFault> {
        let mut headers = [EMPTY_HEADER_SPAN; FIELD_LIMIT];
        let received = ReceivedRequest::parse(request, &mut headers);
        let reply = respond_as_node(
            self.rt.alloc(),
            &received,
            b"",
            keeps,
            policy,
            &self.sites,
            &self.today,
            &self.feed,
        )?;
        print_escaped(out, reply.bytes());
        Ok(())
    }

    fn fetch_request(
        &self,
        out: &mut Out<'_>,
        mut line: CommandLine<'_>,
    ) -> Result<(), HttpDriverFault> {
        let token = line.word().as_bytes();
        let request = line.text(self.rt.alloc())?;
        let mut headers = [EMPTY_HEADER_SPAN; FIELD_LIMIT];
        let received = ReceivedRequest::parse(&request, &mut headers);
        match fetch_request(self.rt.alloc(), &received, token) {
            Some(Ok(name)) => print_escaped(out, name.text()),
            Some(Err(_)) => out.line("no name"),
            None => out.line("none"),
        }
        Ok(())
    }

    fn head_end(&self, out: &mut Out<'_>, line: CommandLine<'_>) -> Result<(), HttpDriverFault> {
        let bytes = line.text(self.rt.alloc())?;
        print_head_end(out, head_end(&bytes));
        Ok(())
    }
}

fn token_of(word: &str) -> Option<&[u8]> {
    match word {
        "-" => None,
        token => Some(token.as_bytes()),
    }
}

fn print_answer(out: &mut Out<'_>, answer: Result<Reply, Refusal>) {
    match answer {
        Ok(reply) => out.print(reply),
        Err(refusal) => out.print(format_args!("refused {refusal}")),
    }
    out.line("");
}

fn print_head_end(out: &mut Out<'_>, end: HeadEnd) {
    out.print(format_args!("{end:?}\n"));
}

fn form_length_of(bytes: &[u8]) -> u64 {
    let mut headers = [EMPTY_HEADER_SPAN; FIELD_LIMIT];
    match ReceivedRequest::parse(bytes, &mut headers).parsed() {
        Some(parsed) => form_length(&parsed),
        None => 0,
    }
}

fn open_feed(alloc: Global) -> Result<Feed<ListKeep>, HttpDriverFault> {
    match Feed::open(alloc, ListKeep::new(alloc)) {
        Ok(feed) => Ok(feed),
        Err(_) => Err(NO_MEMORY),
    }
}

fn offer(feed: &mut Feed<ListKeep>, name: &ReleaseName, size: u64) {
    let _answer = feed.handle(&Event::Offered { name, size });
}

fn arrive(feed: &mut Feed<ListKeep>, name: &ReleaseName, bytes: &[u8]) -> Result<Reply, Refusal> {
    feed.handle(&Event::Piece {
        name,
        first: 0,
        total: None,
        bytes,
    })
}

fn read_site(
    alloc: Global,
    version: &[u8],
    max_age: u32,
    file: Vec<u8>,
) -> Result<Site, HttpDriverFault> {
    match Site::read(alloc, version, max_age, file) {
        Ok(site) => Ok(site),
        Err(SiteFault::Memory) => Err(NO_MEMORY),
        Err(_) => Err(HttpDriverFault("not a site file")),
    }
}

fn named(alloc: Global, site: Site, name: &[u8]) -> Result<NamedSite, HttpDriverFault> {
    let name = Vec::from_slice(alloc, name)?;
    Ok(NamedSite { site, name })
}

// Returns this site for all hosts.
fn sites_of(alloc: Global, site: Site) -> Result<NodeSites, HttpDriverFault> {
    Ok(NodeSites::of_all(alloc, named(alloc, site, b"default")?)?)
}

impl GivenSite {
    fn site(&self, alloc: Global) -> Result<Site, HttpDriverFault> {
        let file = Vec::from_slice(alloc, &self.file)?;
        read_site(alloc, &self.version, self.max_age, file)
    }
}

fn today_of(word: &str) -> Option<Today> {
    Today::new(read_date(word.as_bytes())?)
}
