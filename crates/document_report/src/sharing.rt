//! Counts the paragraphs of a part in several threads. The part is cut into shares, and these into a
//! run for each thread. A thread takes its own run share by share, and then what is left of the others.
//! So it meets the words of neighbours, which often are the same, and all end at about the same time.

ghost use Rattle.std.specs.Prelude.{◌≡◌, ◌+◌, ◌*◌, ◌<◌, ◌≤◌, ℕ, All, IfOk, OnOk, length};
ghost use Rattle.std.specs.Arc.{arc_value};
ghost use Rattle.mark_types.specs.spell_types.declared.Lexicon.{Lexicon};
ghost use Rattle.document_report.specs.Parts.{AreOfShares, IsPartCounted, IsLimited, IsOfFront};
ghost use Rattle.document_report.specs.Parts.{share_at};

use crate::counting::{DocumentPart, VERDICTS, count, count_alone};
use crate::printing::{Output, Report};
use joined_tasks::{Task, perform_each};
use mark_types::lists::NoMemory;
use mark_types::{Asker, Judge};
use std::alloc::Global;
use std::sync::Arc;
use std::sync::atomic::{AtomicUsize, Ordering};
use std::thread::Threads;
use verdict_cache::Cached;

/// How many shares there are for each thread at least, if there are so many paragraphs.
const SHARES: u64 = 16;

/// How many paragraphs a share has at most.
const MOST_SHARED: u64 = 16;

/// A part in shares of so many paragraphs, of which the last may have fewer.
#[derive(Clone, Copy)]
pub struct Shares<'a> {
    pub part: DocumentPart<'a>,
    pub size: usize,
}

/// Shares that stand one after another.
#[derive(Drop)]
struct ShareRun {
    /// The place of the next share that none has taken, if it is below the end.
    next: AtomicUsize,
    /// The place behind the last share.
    end: usize,
}

/// What a thread gives: for each place the report on the share there, if the thread took it.
type TakenShares = Result<Vec<Option<Report>>, NoMemory>;

/// The task of taking and counting shares, those of the run at a thread's place first.
#[derive(Drop)]
struct Taker<'a, J> {
    alloc: Global,
    judge: &'a Arc<J>,
    output: Output,
    shares: &'a Shares<'a>,
    runs: &'a [ShareRun],
    thread: usize,
    taken: TakenShares,
}

impl<J: Judge + Drop> Task for Taker<'_, J> {
    ghost use Rattle.document_report.specs.Parts.{AreOfShares, IsLimited};

    ghost IsReady = { λ taker.
        IsLimited taker.shares.now.part × (0 < taker.shares.now.size) };

    ghost Does = { λ old new. IfOk new.taken
        (AreOfShares old.output (J.lexicon (arc_value old.judge.now)) old.shares.now) };

    /// Takes what is left, and keeps what it comes to.
    fn perform(&mut self) {
        self.taken = take_shares(
            self.alloc,
            self.judge,
            self.output,
            self.shares,
            self.runs,
            self.thread,
        );
    }
}

/// Counts a part in so many threads, while the caller waits, or in the caller's, if it would be one.
/// Each asks the judge through a memory of its own. The caller does the work of a thread that cannot
/// be started.
pub fn count_in_threads<R: Threads + Sync, J: Judge + Drop + Send + Sync>(
    rt: &R,
    alloc: Global,
    judge: &Arc<J>,
    threads: u64,
    output: Output,
    part: DocumentPart<'_>,
) -> Result<Report, NoMemory>
    requires { IsLimited part }
    ensures { IfOk result (IsPartCounted output (J.lexicon (arc_value judge.now)) part.entry) }
{
    if threads < 2 {
        return count_alone(alloc, judge, output, part);
    }
    let shares = Shares {
        part,
        size: share_size(part.paragraphs.len(), threads),
    };
    let runs = runs_of(alloc, shares.count(), threads)?;
    let mut takers = takers_of(alloc, judge, output, &shares, &runs)?;
    perform_each(rt, &mut takers);
    add_shares(alloc, judge, output, &shares, takers.as_slice())
}

/// How many paragraphs a share has, where so many are for so many threads.
fn share_size(paragraphs: usize, threads: u64) -> usize
    requires { 0 < threads }
    ensures { 0 < result }
{
    let shares = threads.saturating_mul(SHARES);
    (paragraphs as u64 / shares).clamp(1, MOST_SHARED) as usize
}

impl<'a> Shares<'a> {
    /// How many shares there are.
    fn count(&self) -> usize
        requires { 0 < self.now.size }
        ensures inside { (place : _) → place < result
            → self.now.size * place < length self.now.part.paragraphs.now }
        ensures all { length self.now.part.paragraphs.now ≤ self.now.size * result }
    {
        self.part.paragraphs.len().div_ceil(self.size)
    }

    /// The share at this place.
    fn share(&self, place: usize) -> DocumentPart<'a>
        requires limited { IsLimited self.now.part }
        requires inside { self.now.size * place < length self.now.part.paragraphs.now }
        ensures first { result.first ≡ self.now.part.first + self.now.size * place }
        ensures paragraphs { result.paragraphs.now
            ≡ share_at self.now.size place self.now.part.paragraphs.now }
        ensures limited { IsLimited result }
    {
        let from = self.size * place;
        let left = &self.part.paragraphs[from..];
        DocumentPart {
            first: self.part.first + from as u64,
            paragraphs: &left[..self.size.min(left.len())],
        }
    }
}

/// A taker for each run.
fn takers_of<'a, J: Judge>(
    alloc: Global,
    judge: &'a Arc<J>,
    output: Output,
    shares: &'a Shares<'a>,
    runs: &'a [ShareRun],
) -> Result<Vec<Taker<'a, J>>, NoMemory>
    ensures { IfOk result (λ takers. All (λ taker.
        (taker.output ≡ output) × (taker.judge.now ≡ judge.now) × (taker.shares.now ≡ shares.now))
        takers.items) }
{
    let mut takers = Vec::with_capacity(alloc, runs.len())?;
    for thread in 0..runs.len() {
        takers.push(Taker {
            alloc,
            judge,
            output,
            shares,
            runs,
            thread,
            taken: Err(NoMemory),
        })?;
    }
    Ok(takers)
}

/// So many runs of shares one after another, or fewer, where there are fewer shares. They are nearly
/// as long as each other.
fn runs_of(alloc: Global, shares: usize, threads: u64) -> Result<Vec<ShareRun>, NoMemory> {
    let threads = shares.min(threads as usize);
    let mut runs = Vec::with_capacity(alloc, threads)?;
    let mut from = 0;
    for thread in 0..threads {
        let left = shares.saturating_sub(from);
        let end = from + left / (threads - thread);
        runs.push(ShareRun {
            next: AtomicUsize::new(from),
            end,
        })?;
        from = end;
    }
    Ok(runs)
}

/// Takes and counts the shares of the run at this thread's place, and then those that are left of
/// the others.
fn take_shares<J: Judge + Drop>(
    alloc: Global,
    judge: &Arc<J>,
    output: Output,
    shares: &Shares<'_>,
    runs: &[ShareRun],
    thread: usize,
) -> TakenShares
    requires limited { IsLimited shares.now.part }
    requires some { 0 < shares.now.size }
    ensures { IfOk result (AreOfShares output (J.lexicon (arc_value judge.now)) shares.now) }
{
    let mut asker = Cached::new(alloc, Arc::try_clone(judge)?, VERDICTS)?;
    let mut reports = no_reports(alloc, shares.count())?;
    let (earlier, later) = runs.split_at(thread.min(runs.len()));
    for run in later {
        take_run(alloc, &mut asker, output, shares, run, &mut reports)?;
    }
    for run in earlier {
        take_run(alloc, &mut asker, output, shares, run, &mut reports)?;
    }
    Ok(reports)
}

/// No reports on so many shares.
fn no_reports(alloc: Global, shares: usize) -> Result<Vec<Option<Report>>, NoMemory>
    ensures none { IfOk result (λ made. (output : Output) (lexicon : Lexicon) (shares : Shares)
        → AreOfShares output lexicon shares made) }
    ensures count { IfOk result (λ made. length made.items ≡ shares) }
{
    let mut reports = Vec::with_capacity(alloc, shares)?;
    for _place in 0..shares {
        reports.push(None)?;
    }
    Ok(reports)
}

/// Takes and counts the next share of a run, until all of it are taken.
fn take_run<K: Asker>(
    alloc: Global,
    asker: &mut K,
    output: Output,
    shares: &Shares<'_>,
    run: &ShareRun,
    reports: &mut Vec<Option<Report>>,
) -> Result<(), NoMemory>
    requires limited { IsLimited shares.now.part }
    requires inside { (place : ℕ) → place < length reports.old.items
        → shares.now.size * place < length shares.now.part.paragraphs.now }
    requires before { AreOfShares output (K.lexicon asker.old) shares.now reports.old }
    ensures taken { AreOfShares output (K.lexicon asker.old) shares.now reports.new }
    ensures count { length reports.new.items ≡ length reports.old.items }
    ensures same { K.lexicon asker.new ≡ K.lexicon asker.old }
{
    for _turn in 0..reports.len() {
        let place = run.next.fetch_add(1, Ordering::SeqCst);
        if place >= run.end.min(reports.len()) {
            break;
        }
        let report = count(alloc, asker, output, shares.share(place))?;
        reports[place] = Some(report);
    }
    Ok(())
}

/// The report on all shares, in their order.
fn add_shares<J: Judge + Drop>(
    alloc: Global,
    judge: &Arc<J>,
    output: Output,
    shares: &Shares<'_>,
    takers: &[Taker<'_, J>],
) -> Result<Report, NoMemory>
    requires limited { IsLimited shares.now.part }
    requires some { 0 < shares.now.size }
    requires taken { All (λ taker. IfOk taker.taken
        (AreOfShares output (J.lexicon (arc_value judge.now)) shares.now)) takers.now }
    ensures { IfOk result (IsPartCounted output (J.lexicon (arc_value judge.now)) shares.now.part) }
{
    let mut all = Report::new(alloc);
    for place in 0..shares.count() {
        add_share(&mut all, alloc, judge, output, shares, place, takers)?;
    }
    Ok(all)
}

/// Adds what a taker gives of the share at this place. Where none gives it, for want of memory,
/// the share is counted here.
fn add_share<J: Judge + Drop>(
    all: &mut Report,
    alloc: Global,
    judge: &Arc<J>,
    output: Output,
    shares: &Shares<'_>,
    place: usize,
    takers: &[Taker<'_, J>],
) -> Result<(), NoMemory>
    requires limited { IsLimited shares.now.part }
    requires inside { shares.now.size * place < length shares.now.part.paragraphs.now }
    requires taken { All (λ taker. IfOk taker.taken
        (AreOfShares output (J.lexicon (arc_value judge.now)) shares.now)) takers.now }
    requires before { IsOfFront output (J.lexicon (arc_value judge.now)) shares.now place all.old }
    ensures { OnOk result
        (IsOfFront output (J.lexicon (arc_value judge.now)) shares.now (place + 1) all.new) }
{
    for taker in takers {
        if let Ok(reports) = &taker.taken {
            if let Some(Some(report)) = reports.get(place) {
                all.append(report)?;
                return Ok(());
            }
        }
    }
    let report = count_alone(alloc, judge, output, shares.share(place))?;
    all.append(&report)?;
    Ok(())
}
