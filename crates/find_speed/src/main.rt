//! Measures lookups in the remote tier, by how many copies a view has.
//!
//! `find_speed [COPIES [OFFSETS [time]]]` feeds a view the events of COPIES copies of ten consecutive offsets each,
//! all of one leader epoch. It looks up OFFSETS of their offsets in a mixed order and prints how many were found.
//! Then it asks a thousand times how far the copies reach, prints how often the answer was all of them, and feeds the
//! events that delete them. With the word `time` another line has the mean time of each. Without it the output is the
//! same in every run.
#![tactic(auto)]

mod copies;
mod looking;
mod pace;
mod task;

use anyhow::Result;
use pace::Pace;
use std::time::Instant;

/// How many times it is asked how far the copies go.
const TIMES: u32 = 1000;

fn main(rt: HostRuntime) -> Result<()> {
    let task = task::from_args(&rt)?;
    let alloc = rt.alloc();
    let start = Instant::now(&rt)?;
    let mut view = copies::view_of(alloc, task.copies)?;
    let fed = Pace::new(start.elapsed(&rt)?, task.copies);
    let line = copies::line(alloc)?;
    let start = Instant::now(&rt)?;
    let found = looking::count_found(&view, &line, copies::end_of(task.copies), task.offsets);
    let looked_up = Pace::new(start.elapsed(&rt)?, task.offsets);
    let start = Instant::now(&rt)?;
    let whole = looking::count_covered(&view, &line, copies::end_of(task.copies), TIMES);
    let asked = Pace::new(start.elapsed(&rt)?, TIMES);
    let start = Instant::now(&rt)?;
    copies::delete(&mut view, task.copies)?;
    let deleted = Pace::new(start.elapsed(&rt)?, task.copies);
    println!(rt;
        "{} copies, {found} of {} offsets found, all of them covered {whole} times",
        task.copies, task.offsets
    )?;
    if task.timed {
        println!(rt;
            "a copy's notes {fed}, a look-up {looked_up}, how far {asked}, a deletion's notes {deleted}"
        )?;
    }
    Ok(())
}
