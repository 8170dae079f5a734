//! The tests, a file for each part.

mod commands;
mod cut_words;
mod making;
mod real_files;
mod scripts;
