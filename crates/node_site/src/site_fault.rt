//! Why bytes are not a site file.
ghost use Rattle.std.specs.Prelude.{◌≡◌, ◌++◌, IfOk, OnOk, option_copied, string_bytes};
ghost use Rattle.node_site.specs.Reading.{key_text, number_text};

use crate::fault::{Misfit, ValueFault};
use crate::position::Position;
use std::alloc::{AllocError, Global};
use std::fmt;
use std::fmt::Write;
use std::marker::Model;

/// A key of a site file, by its path such as `proxy.prefix` or `package[2].first`, and why its value is not accepted.
#[derive(Debug, Drop)]
pub struct KeyFault {
    path: String,
    reason: ValueFault,
}

impl Model for KeyFault {
    ghost use Rattle.std.specs.Prelude.{string_bytes};
    ghost use Rattle.node_site.specs.KeyFaults.{KeyFaultValue};

    ghost Value = { KeyFaultValue };

    ghost view = { λ f. record { path = string_bytes f.path; reason = f.reason } };
}

fn put_number(path: &mut String, number: Option<usize>) -> Result<(), AllocError>
    ensures { OnOk result (string_bytes path.new ≡ string_bytes path.old ++ number_text number) }
{
    match number {
        Some(number) => write!(path, "[{number}]"),
        None => Ok(()),
    }
}

fn put_key(path: &mut String, key: Option<&str>) -> Result<(), AllocError>
    ensures { OnOk result (string_bytes path.new ≡ string_bytes path.old ++ key_text (option_copied key.entry)) }
{
    match key {
        Some(key) => {
            path.push_str(".")?;
            path.push_str(key)
        }
        None => Ok(()),
    }
}

impl KeyFault {
    ghost use Rattle.node_site.specs.Reading.{path_text};

    /// Reports a fault by the path of its key.
    pub(crate) fn of(alloc: Global, misfit: &Misfit<'_>) -> Result<KeyFault, AllocError>
        ensures path { IfOk result (λ fault. fault.path ≡ path_text misfit.now) }
        ensures reason { IfOk result (λ fault. fault.reason ≡ misfit.now.reason) }
    {
        let mut path = String::from_str(alloc, misfit.section())?;
        put_number(&mut path, misfit.row())?;
        put_key(&mut path, misfit.key())?;
        put_number(&mut path, misfit.item())?;
        Ok(KeyFault {
            path,
            reason: misfit.reason(),
        })
    }

    /// Returns the path of the key.
    pub fn path(&self) -> &str
        ensures { result.now ≡ self.now.path }
    {
        self.path.as_str()
    }

    /// Returns why the value is not accepted.
    pub fn reason(&self) -> ValueFault
        ensures { result ≡ self.now.reason }
    {
        self.reason
    }
}

/// Why bytes are not a site file. The length is checked first, then UTF-8, then the syntax of TOML, then the keys.
#[derive(Debug, Drop)]
pub enum SiteFault {
    /// There are more than 65,536 bytes.
    TooLong,
    /// The bytes are not UTF-8.
    NotUtf8,
    /// The text is not TOML at this position.
    Syntax(Position),
    /// The value of a key is not accepted.
    Key(KeyFault),
    /// An allocation failed.
    Memory,
}

impl SiteFault {
    /// Returns what is wrong, in words.
    pub fn words(&self) -> &'static str {
        match self {
            SiteFault::TooLong => "it is longer than 65,536 bytes",
            SiteFault::NotUtf8 => "it is not UTF-8",
            SiteFault::Syntax(_) => "it is not TOML there",
            SiteFault::Key(fault) => fault.reason().words(),
            SiteFault::Memory => "out of memory",
        }
    }
}

fn write_position<W: fmt::Write>(at: Position, f: &mut fmt::Formatter<W>) -> fmt::Result {
    let (line, column) = (at.line, at.column);
    write!(f, "line {line}, column {column}")
}

fn write_path<W: fmt::Write>(path: &str, f: &mut fmt::Formatter<W>) -> fmt::Result {
    for c in path.chars() {
        f.write_char(if c.is_control() { '?' } else { c })?;
    }
    Ok(())
}

/// Writes where the fault is: `line 3, column 5`, or the path of a key, in which `?` stands for a control character.
impl fmt::Display for SiteFault {
    fn fmt<W: fmt::Write>(&self, f: &mut fmt::Formatter<W>) -> fmt::Result {
        match self {
            SiteFault::TooLong => f.write_str("TooLong"),
            SiteFault::NotUtf8 => f.write_str("NotUtf8"),
            SiteFault::Syntax(at) => write_position(*at, f),
            SiteFault::Key(fault) => write_path(fault.path(), f),
            SiteFault::Memory => f.write_str("Memory"),
        }
    }
}
