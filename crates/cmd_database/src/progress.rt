//! The progress of a fetch, shown on a terminal.
ghost use Rattle.std.specs.Prelude.{◌≡◌, is_some, IsTrue, OnOk, OnErr};

use feed_fetch::{FetchEvent, Observe, Unprinted};
use feed_model::Reply;
use std::io;
use std::io::Write;
use std::time::Instant;

/// Prints each event of a fetch at once, as a line. If there is a screen, a line there is rewritten to show how many
/// bytes of the file are stored, the rate and the time left.
#[derive(Drop)]
pub struct ProgressLine<'a, O: Write, S: Write + Drop> {
    rt: &'a HostRuntime,
    out: &'a mut O,
    screen: Option<S>,
    is_shown: bool,
    size: u64,
    began: Option<(Instant, u64)>,
    fault: Option<io::Error>,
}

impl<'a, O: Write, S: Write + Drop> ProgressLine<'a, O, S> {
    pub fn new(rt: &'a HostRuntime, out: &'a mut O, screen: Option<S>) -> ProgressLine<'a, O, S> {
        ProgressLine {
            rt,
            out,
            screen,
            is_shown: false,
            size: 0,
            began: None,
            fault: None,
        }
    }

    /// Returns the system's error if a line was not printed.
    pub fn into_fault(self) -> Option<io::Error> {
        self.fault
    }

    // Stores the error, if there is one.
    fn record_fault(&mut self, printed: io::Result<()>) -> Result<(), Unprinted>
        ensures printed { OnOk result (self.new.fault ≡ self.old.fault) }
        ensures failed { OnErr result (IsTrue (is_some self.new.fault)) }
    {
        match printed {
            Ok(()) => Ok(()),
            Err(fault) => {
                self.fault = Some(fault);
                Err(Unprinted)
            }
        }
    }

    // Shows the progress. An error of the screen is ignored.
    fn show(&mut self, missing: u64)
        ensures { self.new.fault ≡ self.old.fault }
    {
        let Ok(now) = Instant::now(self.rt) else {
            return;
        };
        let (start, missing_then) = match self.began {
            Some(began) => began,
            None => (now, missing),
        };
        self.began = Some((start, missing_then));
        let passed = now.saturating_duration_since(start).as_secs();
        let fetched = missing_then.saturating_sub(missing);
        let kept = self.size.saturating_sub(missing);
        let percent = kept.saturating_mul(100) / self.size.max(1);
        let Some(screen) = &mut self.screen else {
            return;
        };
        self.is_shown = true;
        let _ = write!(screen, "\r{kept} of {} bytes, {percent} %", self.size);
        if passed > 0 && fetched > 0 {
            let rate = fetched / passed;
            let left = missing / rate.max(1);
            let _ = write!(screen, ", {rate} bytes a second, {left} s left");
        }
        let _ = screen.write_all(b"\x1b[K");
    }

    // Takes the line off the screen.
    fn clear(&mut self)
        ensures { self.new.fault ≡ self.old.fault }
    {
        if self.is_shown {
            self.is_shown = false;
            if let Some(screen) = &mut self.screen {
                let _ = screen.write_all(b"\r\x1b[K");
            }
        }
    }
}

impl<O: Write, S: Write + Drop> Observe for ProgressLine<'_, O, S> {
    ghost use Rattle.std.specs.Prelude.{is_some};

    ghost has_failed = { λ progress. is_some progress.fault };

    fn observe(&mut self, event: FetchEvent) -> Result<(), Unprinted> {
        self.clear();
        let printed = writeln!(self.out, "{event}").and_then(|()| self.out.flush());
        self.record_fault(printed)?;
        match event {
            FetchEvent::Size(size) => self.size = size,
            FetchEvent::Accepted(Reply::Stored { missing }) => self.show(missing),
            _ => {}
        }
        Ok(())
    }

    fn finish(&mut self) -> Result<(), Unprinted> {
        self.clear();
        let flushed = self.out.flush();
        self.record_fault(flushed)
    }
}
