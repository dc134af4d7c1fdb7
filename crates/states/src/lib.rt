// The stored states of tag and reader, and the sessions in them. A state's parts are private to its file: every call goes in and
// out by its doors. No public function has a `requires`.
#![tactic(auto)]

mod doors;
mod reader;
pub mod session;
mod tag;

pub use doors::State;
pub use reader::ReaderState;
pub use tag::TagState;
