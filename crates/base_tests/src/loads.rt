//! Scripts whose lines, lengths and checksums another program worked out.

use load_gen::script_of;
use std::alloc::AllocError;

/// A script's length, its lines, and its bytes as digits to the base 31, modulo 2^64.
fn figures(text: &[u8]) -> (usize, u64, u64) {
    let mut lines = 0u64;
    let mut digits = 0u64;
    for byte in text {
        if *byte == b'\n' {
            lines = lines.wrapping_add(1);
        }
        digits = digits.wrapping_mul(31).wrapping_add(*byte as u64);
    }
    (text.len(), lines, digits)
}

/// The first lines of the script of 1.
const BEGINNING: &[u8] = b"\
    brokers 3\n\
    partitions 4\n\
    segment_bytes 4096\n\
    retention_bytes 65536\n\
    local_retention_bytes 8192\n\
    0 0 0 append 0,-,x0000000000000000000000000000000000000000000000000000000000000000000000\
    000000000000000000000000\n\
    14 3 0 trim\n\
    10 2 0 copy\n\
    2 0 0 trim\n\
    2 0 0 copy\n\
    4 1 0 append 5,-,x0505050505050505050505050505050505050505050505050505050505050505050505\
    0505050505050505050505050505050505050505050505050505050505050505050505050505050505050505\
    0505\n\
    12 3 0 append 6,-,x060606060606060606060606060606060606060606060606060606060606060606060\
    6060606060606060606060606060606060606060606060606060606060606060606060606060606060606060\
    6060606060606060606060606060606060606060606060606060606060606060606060606060606060606060\
    606060606060606060606060606\n\
    6 1 0 copy\n\
    8 2 0 append 8,-,x0808080808080808080808080808080808080808080808080808080808080808080808\
    0808080808080808080808080808080808080808080808080808080808080808080808080808080808080808\
    0808080808080808080808080808080808080808\n\
    14 3 0 copy\n\
    0 0 0 fetch 732 4096\n\
    15 3 0 expire\n\
    4 1 0 fetch 1437 4096\n\
    8 2 0 fetch 547 4096\n\
    5 1 1 join\n\
    4 1 0 fetch 1155 4096\n\
    5 1 2 flush\n\
    5 1 2 ack\n\
    0 0 0 fetch 1304 4096\n\
    1 0 0 flush\n\
    1 0 0 ack\n\
    5 1 0 flush\n\
    5 1 0 ack\n";

#[test]
fn the_script_of_1_begins_as_worked_out(rt: HostRuntime) -> Result<(), AllocError> {
    let text = script_of(rt.alloc(), 1)?;
    assert!(rt; text.as_slice().starts_with(BEGINNING), "the first lines");
    Ok(())
}

#[test]
fn scripts_have_the_figures_worked_out(rt: HostRuntime) -> Result<(), AllocError> {
    for (number, want) in [
        (0, (1_575_115, 21_959, 11_638_387_623_140_839_327)),
        (1, (1_570_895, 22_032, 10_566_576_888_003_109_169)),
        (
            4_294_967_295,
            (1_594_175, 21_987, 6_301_900_550_686_471_680),
        ),
    ] {
        let text = script_of(rt.alloc(), number)?;
        assert_eq!(rt; figures(text.as_slice()), want, "the script of {number}");
    }
    Ok(())
}
