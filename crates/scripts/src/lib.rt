// Scripts of calls on a search book, read from text, and what is printed of them.
#![tactic(auto)]

mod lines;
mod print;
mod script;

pub use print::print_script;
