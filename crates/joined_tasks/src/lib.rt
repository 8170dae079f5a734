//! Tasks that are done at once, each in a thread of its own, and joined.
#![tactic(auto)]

ghost use Rattle.std.specs.Prelude.{◌≡◌, vec_len};
ghost use Rattle.std.specs.List.{All, AllZip};

use std::thread::{Threads, join_mut};

/// What a thread does, with all that it has.
pub trait Task {
    /// What has to hold of it before.
    ghost IsReady: { Self → Type 0 };

    /// What becomes of it.
    ghost Does: { Self → Self → Type 0 };

    /// Does all of it. It may wait for others.
    fn perform(&mut self)
        requires { IsReady self.old }
        ensures { Does self.old self.new };
}

/// Does all tasks at once, each in a thread of its own. The caller starts one after another, and then
/// waits: threads that start others at the same time may put two on one processor, also where another
/// one is idle. Where no thread can be made for a task, it comes behind those before it.
pub fn perform_each<R: Threads + Sync, T: Task + Send>(rt: &R, tasks: &mut Vec<T>)
    requires { All T.IsReady tasks.old.items }
    ensures each { AllZip T.Does tasks.old.items tasks.new.items }
    ensures count { vec_len tasks.new ≡ vec_len tasks.old }
{
    start_each(rt, tasks.as_mut_slice());
}

/// Starts the last task, and then those before it.
#[cycle(starting)]
#[tactic(auto, using(crate::proofs::Places::zip_all))]
fn start_each<R: Threads + Sync, T: Task + Send>(rt: &R, tasks: &mut [T])
    requires { All T.IsReady tasks.old }
    ensures { AllZip T.Does tasks.old tasks.new }
{
    let Some((last, others)) = tasks.split_last_mut() else {
        return;
    };
    join_mut(
        rt,
        &mut ||
            requires { T.IsReady last.now }
            ensures { T.Does last.entry.now last.exit.now }
        { last.perform() },
        &mut ||
            requires { All T.IsReady others.now }
            ensures { AllZip T.Does others.entry.now others.exit.now }
        { start_each(rt, others) },
    );
}

/// Does a task in this thread, and others at once beside it. Where no thread can be made, the
/// others come behind it.
pub fn perform_beside<R: Threads + Sync, T: Task + Send, H: Task>(
    rt: &R,
    others: &mut Vec<T>,
    here: &mut H,
)
    requires others { All T.IsReady others.old.items }
    requires here { H.IsReady here.old }
    ensures others { AllZip T.Does others.old.items others.new.items }
    ensures count { vec_len others.new ≡ vec_len others.old }
    ensures here { H.Does here.old here.new }
{
    join_mut(
        rt,
        &mut ||
            requires { All T.IsReady others.now.items }
            ensures others { AllZip T.Does others.entry.now.items others.exit.now.items }
            ensures count { vec_len others.exit.now ≡ vec_len others.entry.now }
        { perform_each(rt, others) },
        &mut ||
            requires { H.IsReady here.now }
            ensures { H.Does here.entry.now here.exit.now }
        { here.perform() },
    );
}

/// Does a task in this thread, and another one at once beside it. Where no thread can be made, the
/// other comes behind it.
pub fn perform_both<R: Threads + Sync, T: Task + Send, H: Task>(rt: &R, other: &mut T, mine: &mut H)
    requires other { T.IsReady other.old }
    requires mine { H.IsReady mine.old }
    ensures other { T.Does other.old other.new }
    ensures mine { H.Does mine.old mine.new }
{
    join_mut(
        rt,
        &mut ||
            requires { T.IsReady other.now }
            ensures { T.Does other.entry.now other.exit.now }
        { other.perform() },
        &mut ||
            requires { H.IsReady mine.now }
            ensures { H.Does mine.entry.now mine.exit.now }
        { mine.perform() },
    );
}

/// Does two crowds of tasks at once, each task in a thread of its own, and behind the second crowd one
/// more task in this thread. Where no thread can be made, the first crowd comes behind all others.
pub fn perform_crowds<R: Threads + Sync, T: Task + Send, U: Task + Send, H: Task>(
    rt: &R,
    others: &mut Vec<T>,
    crowd: &mut Vec<U>,
    last: &mut H,
)
    requires others { All T.IsReady others.old.items }
    requires crowd { All U.IsReady crowd.old.items }
    requires last { H.IsReady last.old }
    ensures others { AllZip T.Does others.old.items others.new.items }
    ensures count { vec_len others.new ≡ vec_len others.old }
    ensures crowd { AllZip U.Does crowd.old.items crowd.new.items }
    ensures last { H.Does last.old last.new }
{
    join_mut(
        rt,
        &mut ||
            requires { All T.IsReady others.now.items }
            ensures others { AllZip T.Does others.entry.now.items others.exit.now.items }
            ensures count { vec_len others.exit.now ≡ vec_len others.entry.now }
        {
            perform_each(rt, others);
        },
        &mut ||
            requires crowd { All U.IsReady crowd.now.items }
            requires last { H.IsReady last.now }
            ensures crowd { AllZip U.Does crowd.entry.now.items crowd.exit.now.items }
            ensures last { H.Does last.entry.now last.exit.now }
        {
            perform_each(rt, crowd);
            last.perform();
        },
    );
}
