//! The calls that read and write records, and decide by them.
pub use gb_history::decide::decide;
pub use gb_history::record_text::{read_record, record_text};
pub use gb_records::stored_records::read_records;
