//! Values in UTF-16 and base64, and networks of IPv4 addresses.
#![tactic(auto)]

mod base64_texts;
mod laws;
mod network;
mod network_text;
mod patterns;
mod utf16;

pub use base64_texts::{base64_text, offset_pieces};
pub use laws::{
    networks_are_read, one_base64_text, patterns_fit, pieces_stand, same_pieces, some_texts,
};
pub use network::Network;
pub use utf16::{Form, utf16_bytes};
