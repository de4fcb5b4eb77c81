//! The text of a query, and the representation of its response.
use node_request::Representation;
use std::marker::Model;

/// The text of a query, and the representation of its response.
#[derive(Drop)]
pub struct OpenUrlText<'a> {
    pub text: &'a [u8],
    pub representation: Representation,
}

impl<'a> Model for OpenUrlText<'a> {
    ghost use Rattle.node_pages.specs.OpenUrlTexts.{OpenUrlTextValue};

    ghost Value = { OpenUrlTextValue };

    ghost view = { λ a. record { text = a.text.now; representation = a.representation } };
}
