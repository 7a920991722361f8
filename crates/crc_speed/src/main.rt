//! Measures the bodies of CRC-32C against a copy of the same memory.
//!
//! `crc_speed [SIZE [ROUNDS [time]]]` computes the checksum of SIZE bytes with each body, ROUNDS times, and prints a
//! line a round: the four checksums, which are equal. With the word `time` the line also has the speed of the copy,
//! and that of each body as a fraction of it. Without it the output is the same in every run.
#![tactic(auto)]

ghost use Rattle.std.specs.Prelude.{◌≡◌, length};

mod body;
mod pace;
mod task;

use anyhow::Result;
use body::Body;
use std::alloc::{AllocError, Global};
use std::rt::Runtime;
use task::Task;

/// Bytes in no order, the same in each run.
fn scrambled(alloc: Global, size: u32) -> Result<Vec<u8>, AllocError> {
    let mut bytes = Vec::with_capacity(alloc, size as usize)?;
    let mut state = 1u32;
    for _ in 0..size {
        state = state.wrapping_mul(1_664_525).wrapping_add(1_013_904_223);
        bytes.push((state >> 24) as u8)?;
    }
    Ok(bytes)
}

/// Copies the bytes, and takes the checksum of the copy by each body.
fn round(rt: &impl Runtime, task: &Task, bytes: &[u8], copy: &mut [u8]) -> Result<()>
    requires { length bytes.now ≡ length copy.old }
{
    let copied = pace::of_copy(rt, bytes, copy)?;
    let (sum, braided) = pace::of_body(rt, Body::Braided, copy)?;
    let (second, sliced) = pace::of_body(rt, Body::Sliced, copy)?;
    let (third, bytewise) = pace::of_body(rt, Body::Bytewise, copy)?;
    let (fourth, bitwise) = pace::of_body(rt, Body::Bitwise, copy)?;
    println!(rt;
        "braided {sum:08x}, sliced {second:08x}, bytewise {third:08x}, bitwise {fourth:08x}"
    )?;
    if task.timed {
        let rate = copied.rate(bytes.len());
        let braided = braided.part_of(&copied);
        let sliced = sliced.part_of(&copied);
        let bytewise = bytewise.part_of(&copied);
        let bitwise = bitwise.part_of(&copied);
        println!(rt;
            "copy {rate} MB/s; of that braided {braided}, sliced {sliced}, bytewise {bytewise}, bitwise {bitwise}"
        )?;
    }
    Ok(())
}

fn main(rt: HostRuntime) -> Result<()> {
    let task = task::from_args(&rt)?;
    let mut bytes = scrambled(rt.alloc(), task.size)?;
    let mut copy = bytes.clone()?;
    for number in 0..task.rounds {
        // No round has the bytes of the one before, so none can be left out.
        if let Some(first) = bytes.as_mut_slice().first_mut() {
            *first = (number % 256) as u8;
        }
        round(&rt, &task, bytes.as_slice(), copy.as_mut_slice())?;
    }
    Ok(())
}
