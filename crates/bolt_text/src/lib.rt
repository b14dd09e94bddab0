//! Texts of keys, values and the lines of a listing, in their forms: each is written to a sink, and what
//! can be read back is read here too. A call with a sink writes its text to it. If it fails, the sink has
//! accepted a prefix of the text.
#![tactic(auto)]

mod forms;
mod gathered;
mod hexadecimal;
mod item_writer;
mod json_text;
pub mod laws;
mod line_words;
mod member_lines;
mod part_words;
mod path_order;
mod path_pieces;
mod pieces;
mod readable;
mod report_fault;

pub use forms::{FigureForm, Form, ListForm};
pub use gathered::put;
pub use hexadecimal::decode_digits;
pub use item_writer::{ItemWriter, item, printable, value};
pub use line_words::{ItemWord, LineWords, cut_at, first_line, words_of};
pub use member_lines::MemberLines;
pub use part_words::{Parts, read_number};
pub use path_order::{is_before, is_below, path_above};
pub use path_pieces::PathForm;
pub use pieces::{Piece, put_pieces};
pub use report_fault::ReportFault;
