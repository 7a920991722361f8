//! Numbers in groups of seven bits, the lowest group first, as `specs/Varint.antt` has them.
//!
//! Most numbers in a batch have one byte or two, so both directions are loops that end with the last group. A number's
//! groups are laid out first and appended at once, so running out of memory leaves none of them behind.

ghost use Rattle.std.specs.Prelude.{◌≡◌, ◌<◌, ◌≤◌, ◌^◌, ◌++◌, length, take, drop, IfOk, OnOk, OnErr, IsErrOf, ◌↔◌};
ghost use Rattle.batch_prims.specs.Varint.{seen, low_bits, groups_at, EndsInside, HasNoLast, shortest};
ghost use Rattle.batch_prims.specs.Varint.{varint_at, varlong_at, varint_bytes, varlong_bytes};

use crate::refusal::VarRefusal;
use crate::zigzag::{decoded_32, decoded_64, encoded};
use std::alloc::AllocError;

/// The most bytes of a varint: 32 bits, seven a byte.
const VARINT_BYTES: usize = 5;
/// The most bytes of a varlong: 64 bits, seven a byte.
const VARLONG_BYTES: usize = 10;

/// The number in the groups at the front, so many at most, and how many they are.
#[inline(always)]
fn read_groups(bytes: &[u8], most: usize) -> Result<(u64, usize), VarRefusal>
    requires { most ≤ 10 }
    ensures within { IfOk result (λ x. x.1 ≤ length bytes.now) }
    ensures used { IfOk result (λ x. 0 < x.1) }
    ensures exact { seen (λ x. (x.0, drop x.1 bytes.now)) result
        ≡ seen (low_bits 64) (groups_at most bytes.now) }
{
    let mut number = 0u64;
    for i in 0..most {
        let Some(byte) = bytes.get(i) else {
            return Err(VarRefusal::Short);
        };
        let group = (*byte % 128) as u64;
        number = number.wrapping_add(group << (7 * i));
        if *byte < 128 {
            return Ok((number, i + 1));
        }
    }
    Err(VarRefusal::TooLong)
}

/// Reads the varint at the front: its value, and how many bytes it has. `VarRefusal` has the causes of a failure.
#[tactic(auto, using(crate::proofs::Groups::fewer_bits), unfolding(crate::specs::Varint::varint_at))]
pub fn read_varint(bytes: &[u8]) -> Result<(i32, usize), VarRefusal>
    ensures within { IfOk result (λ x. x.1 ≤ length bytes.now) }
    ensures used { IfOk result (λ x. 0 < x.1) }
    ensures exact { seen (λ x. (x.0, drop x.1 bytes.now)) result ≡ varint_at bytes.now }

    // Each cause.
    ensures short { IsErrOf result VarRefusal.Short ↔ EndsInside 5 bytes.now }
    ensures too_long { IsErrOf result VarRefusal.TooLong ↔ HasNoLast 5 bytes.now }
{
    let (number, used) = read_groups(bytes, VARINT_BYTES)?;
    Ok((decoded_32((number % (1 << 32)) as u32), used))
}

/// Reads the varlong at the front: its value, and how many bytes it has. `VarRefusal` has the causes of a failure.
#[tactic(auto, unfolding(crate::specs::Varint::varlong_at))]
pub fn read_varlong(bytes: &[u8]) -> Result<(i64, usize), VarRefusal>
    ensures within { IfOk result (λ x. x.1 ≤ length bytes.now) }
    ensures used { IfOk result (λ x. 0 < x.1) }
    ensures exact { seen (λ x. (x.0, drop x.1 bytes.now)) result ≡ varlong_at bytes.now }

    // Each cause.
    ensures short { IsErrOf result VarRefusal.Short ↔ EndsInside 10 bytes.now }
    ensures too_long { IsErrOf result VarRefusal.TooLong ↔ HasNoLast 10 bytes.now }
{
    let (number, used) = read_groups(bytes, VARLONG_BYTES)?;
    Ok((decoded_64(number), used))
}

/// Appends a number in as few groups as it needs.
fn write_groups(out: &mut Vec<u8>, number: u64) -> Result<(), AllocError>
    ensures ok { OnOk result (out.new.items ≡ out.old.items ++ shortest number) }
    ensures err { OnErr result (out.new.items ≡ out.old.items) }
{
    let mut groups = [0; VARLONG_BYTES];
    let mut count = 0;
    let mut rest = number;
    while rest >= 128 {
        groups[count] = (rest % 128 + 128) as u8;
        rest /= 128;
        count += 1;
    }
    groups[count] = rest as u8;
    out.extend_from_slice(&groups[..count + 1])
}

/// Appends the shortest spelling of a varint. Fails only if memory runs out.
#[tactic(auto, unfolding(crate::specs::Varint::varint_bytes))]
pub fn write_varint(out: &mut Vec<u8>, value: i32) -> Result<(), AllocError>
    ensures ok { OnOk result (out.new.items ≡ out.old.items ++ varint_bytes value) }
    ensures err { OnErr result (out.new.items ≡ out.old.items) }
{
    write_groups(out, encoded(value as i64))
}

/// Appends the shortest spelling of a varlong. Fails only if memory runs out.
#[tactic(auto, unfolding(crate::specs::Varint::varlong_bytes))]
pub fn write_varlong(out: &mut Vec<u8>, value: i64) -> Result<(), AllocError>
    ensures ok { OnOk result (out.new.items ≡ out.old.items ++ varlong_bytes value) }
    ensures err { OnErr result (out.new.items ≡ out.old.items) }
{
    write_groups(out, encoded(value))
}
