// The lines of a text, the blanks about them, texts that are read line by line, and lines of the form `word=value`.
#![tactic(auto)]

mod blanks;
mod cut;
mod first_line;
mod hexadecimal;
mod laws;
mod line_reading;
mod numbers;

pub use blanks::{is_blank, without_end, without_front};
pub use cut::{LineCut, cut_line};
pub use first_line::next_line;
pub use hexadecimal::{four_digits, two_digits};
pub use laws::{decimals_law, equations_law, line_reading_law, split_in_one_way, text_lines_law};
pub use line_reading::{LineReader, read_lines};
pub use numbers::parse_decimal;
