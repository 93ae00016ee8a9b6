// The tokens of a rule line, and the words of rules: ids, interfaces, times, pasts, probabilities and keywords. usbguard-rules.conf(5).
#![tactic(auto)]

mod bytes;
mod fault;
mod front;
mod keywords;
mod laws;
mod pieces;
mod reading;
mod string;
mod token;
mod words;
mod writing;

pub use fault::LexFault;
pub use keywords::{Attr, CondName, attribute, condition, is_if, operator};
pub use laws::{
    attribute_words_law, condition_words_law, digits_law, one_meaning, operator_words_law,
    reading_is_grammar, spans_in_order, target_words_law, words_law,
};
pub use reading::tokens;
pub use token::{Token, TokenKind};
pub use words::{Clock, DaySpan, chance, id, interface, past, span};
pub use writing::{put_byte, put_number};
