//! Loads the script that the words `team` name.

ghost use Rattle.std.specs.Prelude.{◌≡◌, ◌<◌, ◌≤◌, ℕ, List, length, Option, IfOk, IsErrOf};
ghost use Rattle.outside.specs.lists.Answers.{GivesDue, failing};
ghost use Rattle.own_dictionary.specs.dictionary_swap.declared.fault.LoadFault.TheVariants.{Failed};
ghost use Rattle.own_dictionary.specs.dictionary_swap.declared.limits.TheConstants.{SIZE_LIMIT};
ghost use Rattle.team_script.specs.Due.{script_due};
ghost use Rattle.file_loading.specs.Due.{IsFileThere, MayCome};
ghost use Rattle.team_forms.specs.Teams.{script_failure, read_due};
ghost use Rattle.file_loading.specs.declared.failure.Failure.TheVariants.{Load};

use crate::limits::MOST_PAIRS;
use file_loading::{Failure, load_bytes};
use input_lines::LINE_LIMIT;
use outside::Files;
use own_dictionary::dictionary_swap::SIZE_LIMIT;
use std::alloc::Global;
use team_script::{Script, ScriptFault, read_script};

/// The script of this name. It has no more lines than a file has bytes.
pub fn load_script<F: Files>(alloc: Global, files: &mut F, name: &str) -> Result<Script, Failure>
    ensures due { (file : Option (List ℕ)) × IsFileThere (F.told files.old) name.now file
        × GivesDue MayCome (λ script. script) (read_due file) result }
    ensures few { IfOk result (λ script. length script.lines ≤ SIZE_LIMIT) }
    ensures failed { IsErrOf result (Load Failed) → F.faults files.old < F.faults files.new }
    ensures same { F.told files.new ≡ F.told files.old }
    ensures count { F.faults files.old ≤ F.faults files.new }
{
    let bytes = load_bytes(alloc, files, name, SIZE_LIMIT)?;
    script_of(alloc, &bytes)
}

/// The script that these bytes are.
fn script_of(alloc: Global, bytes: &[u8]) -> Result<Script, Failure>
    ensures due { GivesDue MayCome (λ script. script)
        (failing script_failure (script_due bytes.now)) result }
    ensures few { IfOk result (λ script. length script.lines ≤ length bytes.now) }
    ensures failed { ¬ (IsErrOf result (Load Failed)) }
{
    match read_script(alloc, bytes) {
        Ok(script) => Ok(script),
        Err(fault) => Err(script_failure(fault)),
    }
}

/// Why a call fails where a file is no script.
fn script_failure(fault: ScriptFault) -> Failure
    ensures { result ≡ script_failure fault }
{
    match fault {
        ScriptFault::Bad { line } => Failure::Script { line },
        ScriptFault::LongLine => Failure::Limit {
            limit: LINE_LIMIT as u64,
        },
        ScriptFault::ManyPairs => Failure::Limit { limit: MOST_PAIRS },
        ScriptFault::NoMemory => Failure::NoMemory,
    }
}
