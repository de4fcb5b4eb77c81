//! The addresses of the server that a node fetches from.
use std::io;
use std::net::{SocketAddr, ToSocketAddrs};
use std::time::{Duration, Instant};

// The seconds for which addresses are used before the name is resolved again.
const FRESH_SECONDS: u64 = 30;

/// The addresses of the server that a node fetches from. A call that resolves its name blocks.
#[derive(Drop)]
pub struct SourceAddrs {
    addrs: Vec<SocketAddr>,
    /// When the name was last resolved.
    resolved: Option<Instant>,
}

impl SourceAddrs {
    /// Begins without addresses.
    pub fn new(rt: &HostRuntime) -> SourceAddrs {
        SourceAddrs {
            addrs: Vec::new(rt.alloc()),
            resolved: None,
        }
    }

    /// Returns an address.
    pub fn get(&self, at: usize) -> Option<SocketAddr> {
        match self.addrs.get(at) {
            Some(addr) => Some(*addr),
            None => None,
        }
    }

    /// Resolves a host and port. After an error the addresses are as before.
    pub fn resolve(&mut self, rt: &HostRuntime, host: &str) -> io::Result<()> {
        self.resolved = Instant::now(rt).ok();
        let mut addrs = Vec::new(rt.alloc());
        for addr in host.to_socket_addrs(rt)? {
            addrs.push(addr)?;
        }
        self.addrs = addrs;
        Ok(())
    }

    /// Resolves a host and port again, unless that was tried in the last 30 seconds.
    pub fn renew(&mut self, rt: &HostRuntime, host: &str) {
        if !self.is_fresh(rt) {
            let _ = self.resolve(rt, host);
        }
    }

    fn is_fresh(&self, rt: &HostRuntime) -> bool {
        match (self.resolved, Instant::now(rt)) {
            (Some(then), Ok(now)) => {
                now.saturating_duration_since(then) < Duration::from_secs(FRESH_SECONDS)
            },
            _ => false,
        }
    }
}
