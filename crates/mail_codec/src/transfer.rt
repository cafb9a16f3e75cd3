//! The transfer encodings Base64, quoted-printable and uuencode, over bytes.

mod base_64;
mod quoted_printable;
mod uuencode;

pub use self::base_64::{decode_base64, decode_base64_body};
pub use self::quoted_printable::decode_quoted_printable;
pub use self::uuencode::{Uudecoded, Uuencoded, decode_uuencode, find_uuencode, uudecoded_exceeds};
