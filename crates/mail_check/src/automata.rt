//! The states of the automata by which values and bodies are judged. No call takes or returns one:
//! the laws of `mail_grammar` speak of them.
pub use crate::bodies::Base64State;
pub use crate::charsets::PairState;
pub use crate::parameters::{Step, ValueState};
pub use crate::senders::SenderState;
pub use crate::words::WordState;
