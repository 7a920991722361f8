//! Runs of a script by threads, which a gate holds: that there is a thread for each actor, and that what is written are
//! the journals of the worlds that the threads turned.

use crate::tests::{Wanted, is_wanted, sink_of, source_of, well, words_of};
use memory_yard::MemoryYard;
use std::sync::Wait;
use std::sync::atomic::{AtomicBool, Ordering};
use std::thread;
use std::thread::Threads;
use tier_base::{ActorId, MemorySink, MemorySource};
use tiered_call::{Gate, OpenGate, tiered};

/// How often a held thread looks whether the other one has come.
const MOST_LOOKS: u32 = 500_000_000;

/// A call of a gate: the actor, and the number of its call.
type Call = (u16, u64);

/// Holds one call of a gate until another one is made.
#[derive(Drop)]
struct Hold {
    held: Call,
    until: Call,
    came: AtomicBool,
    saw: AtomicBool,
}

impl Hold {
    fn new(held: Call, until: Call) -> Hold {
        Hold {
            held,
            until,
            came: AtomicBool::new(false),
            saw: AtomicBool::new(false),
        }
    }

    /// Records that the other call is made.
    fn note(&self, call: Call) {
        if call == self.until {
            self.came.store(true, Ordering::SeqCst);
        }
    }

    /// Holds the call, if it is the one.
    fn hold(&self, call: Call) {
        if call != self.held {
            return;
        }
        for _look in 0..MOST_LOOKS {
            if self.came.load(Ordering::SeqCst) {
                self.saw.store(true, Ordering::SeqCst);
                return;
            }
            thread::yield_now();
        }
    }

    /// Whether the held call continued because the other one came.
    fn has_seen(&self) -> bool {
        self.saw.load(Ordering::SeqCst)
    }
}

impl Gate for Hold {
    fn pass(&self, actor: ActorId, turn: u64) {
        self.note((actor.0, turn));
        self.hold((actor.0, turn));
    }

    fn prepare(&self, _actor: ActorId, _turn: u64) {}
}

/// Two calls, each of which is held until the other is made.
#[derive(Drop)]
struct Meeting {
    one: Hold,
    other: Hold,
}

impl Meeting {
    /// The calls of this number of the first two actors.
    fn at(turn: u64) -> Meeting {
        Meeting {
            one: Hold::new((0, turn), (1, turn)),
            other: Hold::new((1, turn), (0, turn)),
        }
    }

    /// Records the call, and holds it if it is one of the two.
    fn meet(&self, call: Call) {
        self.one.note(call);
        self.other.note(call);
        self.one.hold(call);
        self.other.hold(call);
    }

    /// Whether each of the held calls continued because the other one came.
    fn have_met(&self) -> bool {
        self.one.has_seen() && self.other.has_seen()
    }
}

impl Gate for Meeting {
    fn pass(&self, actor: ActorId, turn: u64) {
        self.meet((actor.0, turn));
    }

    fn prepare(&self, _actor: ActorId, _turn: u64) {}
}

/// The same of two actors that make what their turns want.
#[derive(Drop)]
struct Makers(Meeting);

impl Gate for Makers {
    fn pass(&self, _actor: ActorId, _turn: u64) {}

    fn prepare(&self, actor: ActorId, turn: u64) {
        self.0.meet((actor.0, turn));
    }
}

/// Two actors, of which one makes what the other has appended durable.
const TWO: &str = "0 0 0 flush\n1 0 0 append 1000,-,:a\n";

/// Two actors of one partition, each with a batch from outside.
const RAW: &str = "\
    0 0 0 raw \
    0000000000000000000000390000000002ebf1884b00000000000000000000000003e800000000000003e8fffffffffffffffffffffffffff\
    f000000010e00000001026100\n\
    1 0 0 raw \
    0000000000000000000000390000000002ebf1884b00000000000000000000000003e800000000000003e8fffffffffffffffffffffffffff\
    f000000010e00000001026100\n";

/// Makes a call of the program that runs a script by threads, which pass this gate: the number of its status, and
/// whether what is reported and written is as it should be.
fn called<H: AllocGlobal + Threads + Wait + Sync, G: Gate + Sync>(
    rt: &H,
    gate: &G,
    script: &mut MemorySource,
    out: &mut MemorySink,
    wanted: Wanted,
) -> Option<(u8, bool, bool)> {
    let mut yard = MemoryYard::new(rt.alloc(), Vec::new(rt.alloc()), Vec::new(rt.alloc()));
    match words_of(rt.alloc(), &["sim", "--threads"]) {
        Some(words) => {
            let status = tiered(rt, words.as_slice(), script, &mut yard, out, gate);
            let (is_told, is_written) = is_wanted(rt.alloc(), &status, out.written(), wanted);
            Some((status.number(), is_told, is_written))
        }
        None => None,
    }
}

/// Makes such a call of a script, in pieces of 7 bytes.
fn run<H: AllocGlobal + Threads + Wait + Sync, G: Gate + Sync>(
    rt: &H,
    gate: &G,
    script: &str,
    trace: &str,
) -> Option<(u8, bool, bool)> {
    match (
        source_of(rt.alloc(), script.as_bytes(), &[]),
        sink_of(rt.alloc(), (10_000, 7, &[])),
    ) {
        (Some(mut script), Some(mut out)) => called(
            rt,
            gate,
            &mut script,
            &mut out,
            Wanted::Whole("", trace.as_bytes()),
        ),
        _ => None,
    }
}

#[test]
fn each_actor_has_a_thread_of_its_own(rt: HostRuntime) {
    let gate = Meeting::at(1);
    // Either of them may be the next to have the lock.
    let _ended = run(&rt, &gate, TWO, "");
    assert!(rt; gate.have_met());
}

#[test]
fn no_thread_keeps_the_lock_over_its_list(rt: HostRuntime) {
    // Each comes to its second call while the other one has yet to take a turn more.
    let gate = Meeting::at(2);
    let _ended = run(&rt, &gate, TWO, "");
    assert!(rt; gate.have_met());
}

#[test]
fn two_actors_of_a_partition_check_their_batches_at_once(rt: HostRuntime) {
    let gate = Makers(Meeting::at(1));
    let _ended = run(&rt, &gate, RAW, "");
    assert!(rt; gate.0.have_met());
}

#[test]
fn an_append_that_comes_first_is_flushed(rt: HostRuntime) {
    let gate = Hold::new((0, 1), (1, 2));
    let ended = run(&rt, &gate, TWO, "0 1 0 = Ok 0 0 0\n0 0 0 = Ok 1\n");
    assert!(rt; ended == well(0));
    assert!(rt; gate.has_seen());
}

#[test]
fn a_flush_that_comes_first_has_nothing_to_flush(rt: HostRuntime) {
    let gate = Hold::new((1, 1), (0, 2));
    let ended = run(&rt, &gate, TWO, "0 0 0 = Ok 0\n0 1 0 = Ok 0 0 0\n");
    assert!(rt; ended == well(0));
    assert!(rt; gate.has_seen());
}

/// Scripts whose commands all go to one actor of each partition, and the traces that they give in each order.
static CASES: [(&str, &str); 2] = [
    (
        "\
        0 0 0 append 1000,-,:a\n\
        0 0 0 flush\n\
        0 0 0 ack\n\
        0 0 0 fetch 0 1000\n",
        "\
        0 0 0 = Ok 0 0 0\n\
        0 0 1 = Ok 1\n\
        0 0 2 = Ok 1\n\
        0 0 3 = Run local 0 69 Mark \
        0000000000000000000000390000000002ebf1884b00000000000000000000000003e800000000000003e8fffffffffffffffffffffff\
        fffff000000010e00000001026100\n",
    ),
    (
        "\
        brokers 2\n\
        partitions 2\n\
        0 0 0 append 1000,-,:a\n\
        1 1 1 append 1000,-,:b\n\
        1 1 0 append 1000,-,:c\n",
        "0 0 0 = Ok 0 0 0\n1 1 0 = NotLeader\n1 1 1 = Ok 0 0 0\n",
    ),
];

/// The number of the first row whose trace isn't as it should be.
fn first_wrong<H: AllocGlobal + Threads + Wait + Sync>(rt: &H) -> Option<usize> {
    for (i, (script, trace)) in CASES.iter().enumerate() {
        if run(rt, &OpenGate, script, trace) != well(0) {
            return Some(i);
        }
    }
    None
}

#[test]
fn one_actor_by_a_thread_is_answered_as_without(rt: HostRuntime) {
    assert!(rt; first_wrong(&rt) == None);
}
