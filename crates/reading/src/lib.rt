// The numbers of a line file, read from its bytes, whatever the bytes are. A byte past the end counts as 0.
#![tactic(auto)]

mod decode;
mod length;
mod places;
mod words;

pub use decode::{DecodedFile, decode_file, decode_train, record_size};
pub use length::check_length;
