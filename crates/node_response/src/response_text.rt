//! The bytes of a response, with what an access log needs to know of them.
ghost use Rattle.std.specs.Prelude.{◌≡◌};

use std::marker::Model;

/// The bytes of a response, its status code, and the length of its body.
#[derive(Drop)]
pub struct ResponseText {
    pub(crate) bytes: Vec<u8>,
    pub(crate) status: u16,
    pub(crate) body_length: usize,
}

impl Model for ResponseText {
    ghost use Rattle.node_response.specs.Responses.{ResponseTextValue};

    ghost Value = { ResponseTextValue };

    ghost view = { λ r. record { bytes = r.bytes.items; status = r.status; body_length = r.body_length } };
}

impl ResponseText {
    /// Returns the bytes of the response.
    pub fn bytes(&self) -> &[u8]
        ensures { result.now ≡ self.now.bytes }
    {
        &self.bytes
    }

    /// Returns the status code of the response.
    pub fn status(&self) -> u16
        ensures { result ≡ self.now.status }
    {
        self.status
    }

    /// Returns the number of bytes in the body. It is 0 in the response to a HEAD, and in one whose body follows later.
    pub fn body_length(&self) -> usize
        ensures { result ≡ self.now.body_length }
    {
        self.body_length
    }

    /// Returns the bytes of the response, and forgets the rest.
    pub fn into_bytes(self) -> Vec<u8>
        ensures { result.items ≡ self.bytes }
    {
        self.bytes
    }
}
