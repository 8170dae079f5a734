//! Workers over a desk, each in a thread of its own, beside a task.
#![tactic(auto)]

ghost use Rattle.std.specs.Prelude.{◌≡◌, ◌+◌, ◌<◌, ◌≤◌, ◌++◌, length, map, vec_len, [], IfOk};
ghost use Rattle.std.specs.List.{All, AllZip};
ghost use Rattle.std.specs.Vec.{vec_capacity};
ghost use Rattle.worker_crew.specs.Crews.{HasWorked};

mod place;

use board_share::{Desk, Eye, Naming};
use check_workers::{Bell, Worker};
use joined_tasks::{Task, perform_beside, perform_crowds};
use mark_types::Judge;
use outside::Gate;
use outside::lists::NoMemory;
pub use place::Workplace;
use std::alloc::Global;
use std::marker::Model;
use std::sync::Wait;
use std::thread::Threads;

/// What the workers of a desk share.
#[derive(Drop)]
pub struct Room<'a, J: Judge + Drop, D: Naming, W: Wait + Drop, R: Wait, G: Gate> {
    pub rt: &'a R,
    pub alloc: Global,
    pub desk: &'a Desk<J, D, W>,
    pub bell: &'a Bell,
    pub gate: &'a G,
}

/// A worker, and what it works by.
#[derive(Drop)]
struct Shift<'a, J: Judge + Drop, D: Naming, W: Wait + Drop, R: Wait, G: Gate> {
    rt: &'a R,
    alloc: Global,
    bell: &'a Bell,
    gate: &'a G,
    worker: Worker<'a, J, D, Desk<J, D, W>>,
}

impl<J: Judge + Drop, D: Naming, W: Wait + Drop, R: Wait, G: Gate> Task
    for Shift<'_, J, D, W, R, G> {
    ghost IsReady = { λ shift. Unit {0} };

    ghost Does = { λ old new. HasWorked old.worker.eye new.worker.eye };

    /// Works until the bell is closed.
    fn perform(&mut self) {
        // The others go on, whatever has ended this one.
        let _end = self.worker.work(self.rt, self.alloc, self.gate, self.bell);
    }
}

/// The workers of a desk, and where their eyes go behind their work, with room for one more. Contracts
/// see the eyes.
#[derive(Drop)]
pub struct Crew<'a, J: Judge + Drop, D: Naming, W: Wait + Drop, R: Wait, G: Gate> {
    rt: &'a R,
    shifts: Vec<Shift<'a, J, D, W, R, G>>,
    behind: Vec<Eye<J, D>>,
}

impl<'a, J: Judge + Drop, D: Naming, W: Wait + Drop, R: Wait, G: Gate> Model
    for Crew<'a, J, D, W, R, G> {
    ghost use Rattle.std.specs.Prelude.{◌≡◌, ◌+◌, ◌<◌, List, [], map, vec_len};
    ghost use Rattle.std.specs.Vec.{vec_capacity};
    ghost use Rattle.board_share.specs.Eyes.{EyeSeen};

    ghost Value = { List EyeSeen };

    ghost view = { λ inside. map (λ shift. shift.worker.eye) inside.shifts.items };

    ghost invariant = { λ inside. (inside.behind.items ≡ [])
        × (vec_len inside.behind + vec_len inside.shifts < vec_capacity inside.behind) };
}

/// A worker for each eye, 63 at most.
pub fn crew_of<'x, J: Judge + Drop, D: Naming, W: Wait + Drop, R: Wait, G: Gate>(
    room: Room<'x, J, D, W, R, G>,
    eyes: Vec<Eye<J, D>>,
) -> Result<Crew<'x, J, D, W, R, G>, NoMemory>
    requires { length eyes.items < 64 }
    ensures { IfOk result (λ crew. crew ≡ eyes.items) }
{
    let behind = Vec::with_capacity(room.alloc, eyes.len() + 1)?;
    let shifts = shifts_of(&room, eyes)?;
    Ok(Crew {
        rt: room.rt,
        shifts,
        behind,
    })
}

/// Does a task in this thread, beside the workers, each in a thread of its own. They work until their
/// bell is closed, so the task closes it. Where no thread can be made they come behind the task, and
/// find it closed. The eyes are given back in their order, with room for one more.
pub fn work_beside<
    'x,
    J: Judge + Drop + Send + Sync,
    D: Naming + Send + Sync,
    W: Wait + Drop + Send + Sync,
    R: Threads + Wait + Sync,
    G: Gate + Sync,
    H: Task,
>(crew: Crew<'x, J, D, W, R, G>, task: &mut H) -> Vec<Eye<J, D>>
    requires { H.IsReady task.old }
    ensures worked { AllZip HasWorked crew.entry result.items }
    ensures room { vec_len result < vec_capacity result }
    ensures done { H.Does task.old task.new }
{
    let Crew {
        rt,
        mut shifts,
        mut behind,
    } = crew;
    perform_beside(rt, &mut shifts, task);
    give_back(shifts, &mut behind);
    behind
}

/// Does a crowd of tasks at once, each in a thread of its own, beside the workers, and behind the crowd
/// one more task in this thread, which closes the workers' bell. Where no thread can be made the workers
/// come behind it. The eyes are given back in their order, with room for one more.
pub fn work_beside_crowd<
    'x,
    J: Judge + Drop + Send + Sync,
    D: Naming + Send + Sync,
    W: Wait + Drop + Send + Sync,
    R: Threads + Wait + Sync,
    G: Gate + Sync,
    T: Task + Send,
    H: Task,
>(crew: Crew<'x, J, D, W, R, G>, crowd: &mut Vec<T>, last: &mut H) -> Vec<Eye<J, D>>
    requires crowd { All T.IsReady crowd.old.items }
    requires last { H.IsReady last.old }
    ensures worked { AllZip HasWorked crew.entry result.items }
    ensures room { vec_len result < vec_capacity result }
    ensures crowd { AllZip T.Does crowd.old.items crowd.new.items }
    ensures last { H.Does last.old last.new }
{
    let Crew {
        rt,
        mut shifts,
        mut behind,
    } = crew;
    perform_crowds(rt, &mut shifts, crowd, last);
    give_back(shifts, &mut behind);
    behind
}

/// A worker for each eye, in their order, with the eye's number.
fn shifts_of<'x, J: Judge + Drop, D: Naming, W: Wait + Drop, R: Wait, G: Gate>(
    room: &Room<'x, J, D, W, R, G>,
    eyes: Vec<Eye<J, D>>,
) -> Result<Vec<Shift<'x, J, D, W, R, G>>, NoMemory>
    ensures { IfOk result
        (λ shifts. map (λ shift. shift.worker.eye) shifts.items ≡ eyes.items) }
{
    let mut shifts = Vec::with_capacity(room.alloc, eyes.len())?;
    for eye in eyes {
        let number = eye.number();
        shifts.push(Shift {
            rt: room.rt,
            alloc: room.alloc,
            bell: room.bell,
            gate: room.gate,
            worker: Worker::new(room.desk, eye, number),
        })?;
    }
    Ok(shifts)
}

/// Adds the eyes of workers to others, for which there is room.
fn give_back<J: Judge + Drop, D: Naming, W: Wait + Drop, R: Wait, G: Gate>(
    shifts: Vec<Shift<'_, J, D, W, R, G>>,
    eyes: &mut Vec<Eye<J, D>>,
)
    requires room { vec_len eyes.old + vec_len shifts ≤ vec_capacity eyes.old }
    ensures items { eyes.new.items
        ≡ eyes.old.items ++ map (λ shift. shift.worker.eye) shifts.entry.items }
    ensures room { vec_len eyes.new ≡ vec_len eyes.old + vec_len shifts.entry }
    ensures capacity { vec_capacity eyes.old ≤ vec_capacity eyes.new }
{
    for shift in shifts {
        let Shift { worker, .. } = shift;
        let Ok(()) = eyes.push(worker.into_eye()) else {
            unreachable!()
        };
    }
}
