//! What `team` is asked for, and what it does: the sessions of a script edit one text at once,
//! beside workers.

ghost use Rattle.std.specs.Prelude.{◌≡◌, ◌==◌, ◌<◌, ◌≤◌, ◌++◌, [], All, List, map, Some, None};
ghost use Rattle.std.specs.Prelude.{IfErr, IfOk, IfSome, IsErrOf, OnErr, OnOk, false, true, length};
ghost use Rattle.std.specs.Arc.{arc_value};
ghost use Rattle.std.specs.List.{flat_map};
ghost use Rattle.std.specs.String.{string_bytes};
ghost use Rattle.team_history.specs.ToldBy.{NamedFiles};
ghost use Rattle.outside.specs.Sink.{Appends, AppendsFront};
ghost use Rattle.own_dictionary.specs.dictionary_swap.declared.fault.LoadFault.TheVariants.{Failed as FailedLoad};
ghost use Rattle.own_dictionary.specs.dictionary_swap.declared.limits.TheConstants.{SIZE_LIMIT};
ghost use Rattle.board_share.specs.edit_core.Seen.{opening_of};
ghost use Rattle.board_share.specs.Eyes.{last_of};
ghost use Rattle.input_lines.specs.Ends.{Reading};
ghost use Rattle.team_forms.specs.Pairs.{IsLoaded, names_of};
ghost use Rattle.team_forms.specs.Teamwork.{IsTeamwork, scripts_in, total_line};
ghost use Rattle.file_loading.specs.Ends.{EndsAs, IsEndPut, IsPut};
ghost use Rattle.team_forms.specs.Forms.{team_form};
ghost use Rattle.file_loading.specs.Forms.{IsAnswerBy, IsClosedAfter, IsUntouched};
ghost use Rattle.team_forms.specs.TeamLoads.{AreLoaded, AreNotLoaded, IsHeld, IsNotHeld};
ghost use Rattle.team_forms.specs.TeamLoads.{IsNotLoaded, IsPairLoaded, IsTeamLoaded, ending_of};
ghost use Rattle.file_loading.specs.declared.failure.Failure.TheVariants.{Load};

use crate::loading::load_script;
use crate::pairs::LoadedPair;
use crate::scripts::scripts_of;
use crate::teamwork::{Teamed, answer_at_once};
use board_share::Closed;
use board_share::edit_core::Versions;
use file_loading::{
    End, Ended, Failure, SINK_FAILED, Workers, load_base_judge, load_speller, put_end,
};
use outside::lists::{Copied, NoMemory};
use outside::{Failed, Files, Gate, Sink};
use own_dictionary::dictionary_swap::LoadFault;
use std::alloc::{AllocError, Global};
use std::marker::Model;
use std::sync::{Arc, Wait};
use std::thread::Threads;
use team_script::{Pair, Script};
use word_verdict::Speller;
use worker_crew::Workplace;

/// The files that the words `team AFF DIC SCRIPT` name. Contracts see their names.
#[derive(Drop)]
pub struct TeamNames<'a> {
    pub aff: &'a str,
    pub dic: &'a str,
    pub script: &'a str,
}

impl<'a> Model for TeamNames<'a> {
    ghost use Rattle.team_forms.specs.Operands.{TeamNamed};

    ghost Value = { TeamNamed };

    ghost view = { λ inside. record {
      aff = inside.aff.now;
      dic = inside.dic.now;
      script = inside.script.now;
    } };
}

/// Runs the sessions of a script at once, while so many workers check beside them. Then it writes
/// what each was replied, and the versions of the last board.
pub fn team<R, F, K, G>(
    place: &Workplace<'_, R, G>,
    names: TeamNames<'_>,
    workers: Workers,
    files: &mut F,
    out: &mut K,
) -> Ended<Closed<Speller>>
where
    R: Threads + Wait + Sync,
    F: Files,
    K: Sink,
    G: Gate + Sync,
    // Whatever there is of an input, which stays untouched.
    ensures due { (reading : Reading) → IsUntouched reading
        → EndsAs (IsAnswerBy true (team_form names.entry workers) (record {
          folder = F.told files.old;
          files_before = F.faults files.old;
          files_after = F.faults files.new;
          reading = reading;
          closed = result.closed;
        })) (K.faults out.old < K.faults out.new) (K.written out.old) (K.written out.new)
        result.status }
    ensures complete { (reading : Reading) → K.faults out.new ≡ K.faults out.old
        → EndsAs ((team_form names.entry workers).whole (record {
          folder = F.told files.old;
          files_before = F.faults files.old;
          files_after = F.faults files.new;
          reading = reading;
          closed = result.closed;
        })) ⊥ (K.written out.old) (K.written out.new) result.status }
    ensures closed { IsClosedAfter true result.status result.closed }
    ensures same { F.told files.new ≡ F.told files.old }
    ensures files_count { F.faults files.old ≤ F.faults files.new }
    ensures sink_count { K.faults out.old ≤ K.faults out.new }
{
    match load_team(place.alloc, files, &names) {
        Ok(team) => match perform(place, &team, workers) {
            Ok(done) => put_all(out, done),
            Err(NoMemory) => fail(place.alloc, out, Failure::NoMemory),
        },
        Err(failure) => fail(place.alloc, out, failure),
    }
}

/// Writes why a call failed. It opened no desk that has a history to tell.
fn fail<K: Sink>(alloc: Global, out: &mut K, failure: Failure) -> Ended<Closed<Speller>>
    ensures puts { IsEndPut (End.Failed failure) (K.faults out.old < K.faults out.new)
        (K.written out.old) (K.written out.new) result.status }
    ensures status { (result.status == 0) ≡ false }
    ensures closed { result.closed ≡ None }
    ensures sink_count { K.faults out.old ≤ K.faults out.new }
{
    Ended {
        status: put_end(alloc, out, End::Failed(failure)),
        closed: None,
    }
}

/// What the files of a team say: a dictionary, a script, and the pairs that it loads.
#[derive(Drop)]
struct LoadedTeam {
    judge: Arc<Speller>,
    script: Script,
    pairs: Vec<LoadedPair<Speller>>,
}

/// What these files say, or what stops it first: the dictionary is loaded before the script, and
/// that before the pairs that it loads.
fn load_team<F: Files>(
    alloc: Global,
    files: &mut F,
    names: &TeamNames<'_>,
) -> Result<LoadedTeam, Failure>
    ensures ok { IfOk result (λ team. IsTeamLoaded (F.told files.old) names.now
        (record { lexicon = arc_value team.judge; script = team.script }) team.pairs.items) }
    ensures few { IfOk result (λ team. length team.script.lines ≤ SIZE_LIMIT) }
    ensures err { IfErr result (IsNotLoaded (F.told files.old) names.now) }
    ensures failed { IsErrOf result (Load FailedLoad) → F.faults files.old < F.faults files.new }
    ensures same { F.told files.new ≡ F.told files.old }
    ensures count { F.faults files.old ≤ F.faults files.new }
{
    let judge = load_base_judge(alloc, files, names.aff, names.dic)?;
    let script = load_script(alloc, files, names.script)?;
    let pairs = load_pairs(alloc, files, script.pairs())?;
    Ok(LoadedTeam {
        judge,
        script,
        pairs,
    })
}

/// Loads pairs, up to the first that ends the call.
fn load_pairs<F: Files>(
    alloc: Global,
    files: &mut F,
    pairs: &[Pair],
) -> Result<Vec<LoadedPair<Speller>>, Failure>
    ensures ok { IfOk result (λ loaded. AreLoaded (F.told files.old) pairs.now loaded.items) }
    ensures err { IfErr result (AreNotLoaded (F.told files.old) pairs.now) }
    ensures failed { IsErrOf result (Load FailedLoad) → F.faults files.old < F.faults files.new }
    ensures same { F.told files.new ≡ F.told files.old }
    ensures count { F.faults files.old ≤ F.faults files.new }
{
    let mut loaded = Vec::new(alloc);
    for pair in pairs {
        loaded.push(load_pair(alloc, files, pair)?)?;
    }
    Ok(loaded)
}

/// Loads a pair.
fn load_pair<F: Files>(
    alloc: Global,
    files: &mut F,
    pair: &Pair,
) -> Result<LoadedPair<Speller>, Failure>
    ensures ok { IfOk result (IsPairLoaded (F.told files.old) pair.now) }
    ensures err { IfErr result (IsNotHeld (F.told files.old) pair.now.aff pair.now.dic) }
    ensures failed { IsErrOf result (Load FailedLoad) → F.faults files.old < F.faults files.new }
    ensures same { F.told files.new ≡ F.told files.old }
    ensures count { F.faults files.old ≤ F.faults files.new }
{
    let aff = pair.aff.copy(alloc)?;
    let dic = pair.dic.copy(alloc)?;
    let loaded = hold(alloc, files, aff.as_str(), dic.as_str())?;
    Ok(LoadedPair { aff, dic, loaded })
}

/// What is held of these two files: what is asked, or a fault in a line of them, which each `load`
/// of them is told. Any other fault ends the call.
fn hold<F: Files>(
    alloc: Global,
    files: &mut F,
    aff: &str,
    dic: &str,
) -> Result<Result<Arc<Speller>, LoadFault>, Failure>
    ensures ok { IfOk result (IsHeld (F.told files.old) aff.now dic.now) }
    ensures err { IfErr result (IsNotHeld (F.told files.old) aff.now dic.now) }
    ensures failed { IsErrOf result (Load FailedLoad) → F.faults files.old < F.faults files.new }
    ensures same { F.told files.new ≡ F.told files.old }
    ensures count { F.faults files.old ≤ F.faults files.new }
{
    match load_speller(alloc, files, aff, dic) {
        Ok(judge) => Ok(Ok(judge)),
        Err(fault) => match ending_of(fault) {
            Some(failure) => Err(failure),
            None => Ok(Err(fault)),
        },
    }
}

/// Why a pair that was refused ends the call. A fault in a line of it does not.
fn ending_of(fault: LoadFault) -> Option<Failure>
    ensures { result ≡ ending_of fault }
{
    match fault {
        LoadFault::Aff { .. } | LoadFault::Dic { .. } => None,
        other => Some(Failure::from(other)),
    }
}

/// What is to be printed of a team: what each session was replied, and the line behind them. With
/// it stands the history of its desk.
#[derive(Drop)]
struct Printed {
    texts: Vec<String>,
    total: String,
    closed: Closed<Speller>,
}

/// Lets the sessions of a team answer their lines at once, beside so many workers.
fn perform<R, G>(
    place: &Workplace<'_, R, G>,
    team: &LoadedTeam,
    workers: Workers,
) -> Result<Printed, NoMemory>
where
    R: Threads + Wait + Sync,
    G: Gate + Sync,
    requires pairs { map names_of team.now.pairs.items ≡ team.now.script.pairs }
    requires few { length team.now.script.lines ≤ SIZE_LIMIT }
    ensures work { IfOk result (λ done. (files : List NamedFiles)
        → All (IsLoaded (λ lexicon. lexicon) files) team.now.pairs.items
        → IsTeamwork files workers (opening_of (arc_value team.now.judge) [])
        (scripts_in team.now.script.lines) done.closed (map string_bytes done.texts.items)) }
    ensures total { IfOk result
        (λ done. string_bytes done.total ≡ total_line (last_of done.closed)) }
{
    let judge = Arc::try_clone(&team.judge)?;
    let scripts = scripts_of(place.alloc, &team.script)?;
    let count = workers.count() as u32;
    let Teamed { texts, closed } = answer_at_once(place, count, judge, &team.pairs, &scripts)?;
    let total = total_of(place.alloc, &closed)?;
    Ok(Printed {
        texts,
        total,
        closed,
    })
}

/// The line behind what all sessions were replied: the versions of the last board.
fn total_of(alloc: Global, closed: &Closed<Speller>) -> Result<String, AllocError>
    ensures { IfOk result (λ total. string_bytes total ≡ total_line (last_of closed.now)) }
{
    let Versions { text, dict, .. } = closed.board().versions();
    let mut total = String::new(alloc);
    write!(total, "total text {text} dict {dict}\n")?;
    Ok(total)
}

/// Writes what is to be printed of a team. The history of its desk is told where all was written.
fn put_all<K: Sink>(out: &mut K, printed: Printed) -> Ended<Closed<Speller>>
    ensures puts { IsPut 0 (flat_map (λ one. one) (map string_bytes printed.texts.items)
        ++ string_bytes printed.total) (K.faults out.old < K.faults out.new) (K.written out.old)
        (K.written out.new) result.status }
    ensures closed { IsClosedAfter true result.status result.closed }
    ensures history { IfSome result.closed (λ run. run ≡ printed.closed) }
    ensures sink_count { K.faults out.old ≤ K.faults out.new }
{
    let Printed {
        texts,
        total,
        closed,
    } = printed;
    match put_texts(out, &texts, total.as_bytes()) {
        Ok(()) => Ended {
            status: End::Quiet.status(),
            closed: Some(closed),
        },
        Err(Failed) => Ended {
            status: SINK_FAILED,
            closed: None,
        },
    }
}

/// Writes texts, and then a last one.
fn put_texts<K: Sink>(out: &mut K, texts: &[String], last: &[u8]) -> Result<(), Failed>
    ensures ok { OnOk result (Appends (K.written out.old) (K.written out.new)
        (flat_map (λ one. one) (map string_bytes texts.now) ++ last.now)) }
    ensures failed { OnErr result (AppendsFront (K.written out.old) (K.written out.new)
        (flat_map (λ one. one) (map string_bytes texts.now) ++ last.now)) }
    ensures count { K.faults out.old ≤ K.faults out.new }
    ensures rose { OnErr result (K.faults out.old < K.faults out.new) }
{
    for text in texts {
        out.put(text.as_bytes())?;
    }
    out.put(last)
}
