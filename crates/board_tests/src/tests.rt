//! The tests: events in tables, boards that are looked through, filled and emptied, and edits of paragraphs.

mod board_tables;
mod boards;
mod paragraphs;
