//! Laws of all mail, whatever its bytes are, over the definitions that the library's contracts
//! cite. `render` writes an outline of a message as bytes that read back; `encode_value` writes one
//! header value.
#![tactic(auto)]

pub mod laws;
pub mod render;
