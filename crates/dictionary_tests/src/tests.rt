//! The tests, a file for each part.

mod derivations;
mod dictionaries;
mod joints;
mod loaded;
mod loads;
mod pattern_tables;
mod replacements;
mod rule_places;
mod sharp_spellings;
mod undone_rules;
