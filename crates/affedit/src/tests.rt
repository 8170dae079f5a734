//! Tests of whole runs over objects in memory: the rows of each topic, and beside them what no row can say.

mod at_once;
mod early_ends;
mod made_inputs;
mod memory;
mod rows;
mod runner;
mod team;

use runner::run_rows;
use std::test::Fail;

/// Which parts make up a compound.
#[test]
fn compounds(rt: HostRuntime) -> Result<(), Fail> {
    for rows in [
        rows::compoundflag::ROWS,
        rows::compoundforbidflag::ROWS,
        rows::compoundmin::ROWS,
        rows::compoundmoresuffixes::ROWS,
        rows::compoundpermitflag::ROWS,
        rows::compoundrule::ROWS,
        rows::compoundwordmax::ROWS,
        rows::forceucase::ROWS,
        rows::onlyincompound::ROWS,
    ] {
        run_rows(&rt, rt.alloc(), rows)?;
    }
    Ok(())
}

/// Which parts may meet, and which compounds are misspellings.
#[test]
fn joints(rt: HostRuntime) -> Result<(), Fail> {
    for rows in [
        rows::checkcompoundcase::ROWS,
        rows::checkcompounddup::ROWS,
        rows::checkcompoundpattern::ROWS,
        rows::checkcompoundrep::ROWS,
        rows::checkcompoundtriple::ROWS,
        rows::joints_together::ROWS,
        rows::rep::ROWS,
        rows::simplifiedtriple::ROWS,
    ] {
        run_rows(&rt, rt.alloc(), rows)?;
    }
    Ok(())
}

/// Which affixes a word has.
#[test]
fn affixes(rt: HostRuntime) -> Result<(), Fail> {
    for rows in [
        rows::circumfix::ROWS,
        rows::conditions::ROWS,
        rows::fullstrip::ROWS,
        rows::licences::ROWS,
        rows::needaffix::ROWS,
        rows::pfx_sfx::ROWS,
        rows::stripping::ROWS,
    ] {
        run_rows(&rt, rt.alloc(), rows)?;
    }
    Ok(())
}

/// Which entries are words, and in which spellings.
#[test]
fn spellings(rt: HostRuntime) -> Result<(), Fail> {
    for rows in [
        rows::breaks::ROWS,
        rows::forbiddenword::ROWS,
        rows::iconv::ROWS,
        rows::ignore::ROWS,
        rows::keepcase::ROWS,
        rows::cases::ROWS,
        rows::checksharps::ROWS,
        rows::long_words::ROWS,
        rows::numbers::ROWS,
        rows::warn::ROWS,
    ] {
        run_rows(&rt, rt.alloc(), rows)?;
    }
    Ok(())
}

/// The lines of files.
#[test]
fn files(rt: HostRuntime) -> Result<(), Fail> {
    for rows in [
        rows::af::ROWS,
        rows::dic_file::ROWS,
        rows::document::ROWS,
        rows::first_fault::ROWS,
        rows::flag::ROWS,
        rows::left_out::ROWS,
        rows::set::ROWS,
        rows::switches::ROWS,
        rows::unknown_lines::ROWS,
        rows::wordchars::ROWS,
    ] {
        run_rows(&rt, rt.alloc(), rows)?;
    }
    Ok(())
}

/// The command line.
#[test]
fn words_and_files(rt: HostRuntime) -> Result<(), Fail> {
    for rows in [
        rows::forms::ROWS,
        rows::make::ROWS,
        rows::missing_and_failing::ROWS,
        rows::words::ROWS,
        rows::workers::ROWS,
    ] {
        run_rows(&rt, rt.alloc(), rows)?;
    }
    Ok(())
}

/// Personal words.
#[test]
fn personal_words(rt: HostRuntime) -> Result<(), Fail> {
    run_rows(&rt, rt.alloc(), rows::own::ROWS)?;
    Ok(())
}

/// Dialogues of `edit`.
#[test]
fn dialogues(rt: HostRuntime) -> Result<(), Fail> {
    for rows in [
        rows::del::ROWS,
        rows::early_ends::ROWS,
        rows::ins::ROWS,
        rows::lines::ROWS,
        rows::load::ROWS,
        rows::put_and_sub::ROWS,
        rows::quit::ROWS,
        rows::settle::ROWS,
        rows::show::ROWS,
        rows::stop_and_ask::ROWS,
    ] {
        run_rows(&rt, rt.alloc(), rows)?;
    }
    Ok(())
}

/// Lines of words.
#[test]
fn piped_lines(rt: HostRuntime) -> Result<(), Fail> {
    run_rows(&rt, rt.alloc(), rows::pipe::ROWS)?;
    Ok(())
}

/// Sessions at once.
#[test]
fn sessions_at_once(rt: HostRuntime) -> Result<(), Fail> {
    run_rows(&rt, rt.alloc(), rows::team::ROWS)?;
    Ok(())
}

/// The largest files, and the longest lines.
#[test]
fn limits(rt: HostRuntime) -> Result<(), Fail> {
    for rows in [rows::limits::ROWS, rows::long_lines::ROWS] {
        run_rows(&rt, rt.alloc(), rows)?;
    }
    Ok(())
}
