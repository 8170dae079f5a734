//! Reads a line of the console as a command.

ghost use Rattle.std.specs.Prelude.{◌≡◌, Some};
ghost use Rattle.std.specs.Option.{option_map};
ghost use Rattle.console_lang.specs.declared.command.Command.TheVariants.{Ins, Put, Sub, Load};
ghost use Rattle.console_lang.specs.declared.command.Command.TheVariants.{Own};
ghost use Rattle.console_lang.specs.Commands.{placed_text, placed_span, lone_place, two_names};
ghost use Rattle.console_lang.specs.Commands.{alone, command_named, command_in, said_by, IsAnswer};
ghost use Rattle.console_lang.specs.Commands.{IsFound};
ghost use Rattle.console_lang.specs.Handed.{words_left_of_line};
ghost use Rattle.console_lang.specs.Words.{text_of_words};

use crate::command::{Command, CommandFault};
use crate::forms::{lone_place, placed_span, placed_text, two_names};
use crate::words::{Words, is_blank};
use mark_types::text_lines::Text;
use std::alloc::Global;

/// The command that a line is. A blank line is none, and no fault. One space parts the words of a
/// command; a number has 1 to 9 ASCII digits; a text is all behind one space, which may be missing
/// where the text is empty.
#[tactic(auto, unfolding(crate::specs::Commands::command_of))]
pub fn read_command(alloc: Global, line: &str) -> Result<Option<Command>, CommandFault>
    ensures { IsAnswer (said_by line.now) result }
{
    if is_blank(line) {
        return Ok(None);
    }
    let command = read_words(alloc, Words::of(line))?;
    Ok(Some(command))
}

fn read_words(alloc: Global, words: Words<'_>) -> Result<Command, CommandFault>
    ensures { IsFound (command_in (words_left_of_line words.entry)) result }
{
    match words.split_first() {
        Some((name, behind)) => read_named(alloc, name, behind),
        None => Err(CommandFault::BadCommand),
    }
}

/// The command with this name and these words behind it.
#[tactic(auto, unfolding(crate::specs::Commands::command_named))]
fn read_named(alloc: Global, name: &str, words: Words<'_>) -> Result<Command, CommandFault>
    ensures { IsFound (command_named name.now (words_left_of_line words.entry)) result }
{
    match name {
        "ins" => read_ins(alloc, words),
        "put" => read_put(alloc, words),
        "sub" => read_sub(alloc, words),
        "del" => Ok(Command::Del {
            place: place_alone(words)?,
        }),
        "load" => read_load(alloc, words),
        "own" => read_own(alloc, words),
        "stop" => Ok(Command::Stop {
            place: place_alone(words)?,
        }),
        "ask" => Ok(Command::Ask {
            place: place_alone(words)?,
        }),
        "show" => alone(Command::Show, words),
        "settle" => alone(Command::Settle, words),
        "quit" => alone(Command::Quit, words),
        _ => Err(CommandFault::BadCommand),
    }
}

fn read_ins(alloc: Global, words: Words<'_>) -> Result<Command, CommandFault>
    ensures { IsFound
        (option_map (λ said. Ins said.0 said.1) (placed_text (words_left_of_line words.entry))) result }
{
    let Some((place, text)) = placed_text(words) else {
        return Err(CommandFault::BadCommand);
    };
    let text = Text::from_str(alloc, text)?;
    Ok(Command::Ins { place, text })
}

fn read_put(alloc: Global, words: Words<'_>) -> Result<Command, CommandFault>
    ensures { IsFound
        (option_map (λ said. Put said.0 said.1) (placed_text (words_left_of_line words.entry))) result }
{
    let Some((place, text)) = placed_text(words) else {
        return Err(CommandFault::BadCommand);
    };
    let text = Text::from_str(alloc, text)?;
    Ok(Command::Put { place, text })
}

fn read_sub(alloc: Global, words: Words<'_>) -> Result<Command, CommandFault>
    ensures { IsFound
        (option_map (λ said. Sub said.0 said.1 said.2 said.3)
        (placed_span (words_left_of_line words.entry))) result }
{
    let Some(span) = placed_span(words) else {
        return Err(CommandFault::BadCommand);
    };
    Ok(Command::Sub {
        place: span.place,
        from: span.from,
        to: span.to,
        text: Text::from_str(alloc, span.text)?,
    })
}

fn read_load(alloc: Global, words: Words<'_>) -> Result<Command, CommandFault>
    ensures { IsFound (option_map (λ said. Load said.0 said.1) (two_names (words_left_of_line words.entry)))
        result }
{
    let Some((aff, dic)) = two_names(words) else {
        return Err(CommandFault::BadCommand);
    };
    Ok(Command::Load {
        aff: Text::from_str(alloc, aff)?,
        dic: Text::from_str(alloc, dic)?,
    })
}

fn read_own(alloc: Global, words: Words<'_>) -> Result<Command, CommandFault>
    ensures { IsFound (Some (Own (text_of_words (words_left_of_line words.entry)))) result }
{
    let text = Text::from_str(alloc, words.text())?;
    Ok(Command::Own { text })
}

fn place_alone(words: Words<'_>) -> Result<u32, CommandFault>
    ensures { IsFound (lone_place (words_left_of_line words.entry)) result }
{
    lone_place(words).ok_or(CommandFault::BadCommand)
}

/// The command, if no word stands behind its name.
fn alone(command: Command, words: Words<'_>) -> Result<Command, CommandFault>
    ensures { IsFound (alone command (words_left_of_line words.entry)) result }
{
    match words.split_first() {
        None => Ok(command),
        Some(_) => Err(CommandFault::BadCommand),
    }
}
