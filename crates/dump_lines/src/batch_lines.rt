//! The line of a batch, as `kafka-dump-log` prints it. `specs/Fields.antt` says where each field comes from.

ghost use Rattle.std.specs.Prelude.{◌≡◌, ◌<◌, IfOk};
ghost use Rattle.std.specs.Option.{option_map};
ghost use Rattle.dump_lines.specs.declared.field.Value.TheVariants as Value;
ghost use Rattle.dump_lines.specs.Fields.{front_fields, back_fields, sum_fields, batch_fields};
ghost use Rattle.dump_lines.specs.Fields.{last_of, last_field, time_field, codec_field, bit_field, size_field};
ghost use Rattle.dump_lines.specs.Fields.{has_bit as bit_of, time_name as time_name_of, shown_fields, broken_fields};

use crate::field::{Field, Line, Name, Value};
use crate::seeing::{Broken, Shown, size_in};
use record_batch::{BatchRefusal, Head};
use std::alloc::{AllocError, Global};

/// Whether a bit of the attributes is set.
fn has_bit(attributes: u16, bit: u16) -> bool
    requires { 0 < bit }
    ensures { result ≡ bit_of attributes bit }
{
    attributes / bit % 2 == 1
}

/// The name of the greatest timestamp: bit 3 of the attributes says whether the producer or the broker set it.
pub(crate) fn time_name(attributes: u16) -> Name
    ensures { result ≡ time_name_of attributes }
{
    if has_bit(attributes, 8) {
        Name::LogAppendTime
    } else {
        Name::CreateTime
    }
}

/// A field of a number.
pub(crate) fn number(name: Name, number: i64) -> Field
    ensures { result ≡ record { name = name; value = Value.Number number } }
{
    let value = Value::Number(number);
    Field { name, value }
}

/// A field of yes or no.
fn flag(name: Name, flag: bool) -> Field
    ensures { result ≡ record { name = name; value = Value.Flag flag } }
{
    let value = Value::Flag(flag);
    Field { name, value }
}

/// A field of another kind.
pub(crate) fn field(name: Name, value: Value) -> Field
    ensures { result ≡ record { name = name; value = value } }
{
    Field { name, value }
}

/// Returns the last offset of the batch with this head.
#[tactic(auto, unfolding(crate::specs::Fields::last_of))]
pub fn last_offset(head: &Head) -> i64
    ensures { result ≡ last_of head.now }
{
    head.base_offset.wrapping_add(head.last_offset_delta as i64)
}

/// The last offset of a batch, as a field.
#[tactic(auto, unfolding(crate::specs::Fields::last_field))]
fn last(head: &Head) -> Field
    ensures { result ≡ last_field head.now }
{
    number(Name::LastOffset, last_offset(head))
}

/// The greatest timestamp of a batch.
fn time(head: &Head) -> Field
    ensures { result ≡ time_field head.now }
{
    field(
        time_name(head.attributes.cast_unsigned()),
        Value::Time(head.max_ts),
    )
}

/// The compression of a batch.
fn codec(head: &Head) -> Field
    ensures { result ≡ codec_field head.now }
{
    let codec = head.attributes.cast_unsigned() % 8;
    field(Name::CompressCodec, Value::Codec(codec as u8))
}

/// Whether a bit of a batch's attributes is set.
fn bit(name: Name, head: &Head, weight: u16) -> Field
    requires { 0 < weight }
    ensures { result ≡ bit_field name head.now weight }
{
    flag(name, has_bit(head.attributes.cast_unsigned(), weight))
}

/// The size of a batch.
fn size(head: &Head) -> Field
    ensures { result ≡ size_field head.now }
{
    field(Name::Size, Value::Bytes(size_in(head) as u64))
}

/// The front of the line of the batch with a head.
fn front(head: &Head) -> [Field; 7]
    ensures { result ≡ front_fields head.now }
{
    [
        number(Name::BaseOffset, head.base_offset),
        last(head),
        number(Name::Count, head.records_count as i64),
        number(Name::BaseSequence, head.base_sequence as i64),
        number(Name::ProducerId, head.producer_id),
        number(Name::ProducerEpoch, head.producer_epoch as i64),
        number(Name::PartitionLeaderEpoch, head.leader_epoch as i64),
    ]
}

/// The back of the line of the batch with a head, but for its checksum.
fn back(position: u64, head: &Head) -> [Field; 7]
    ensures { result ≡ back_fields position head.now }
{
    [
        bit(Name::IsTransactional, head, 16),
        bit(Name::IsControl, head, 32),
        field(Name::Position, Value::Unsigned(position)),
        time(head),
        size(head),
        number(Name::Magic, head.magic as i64),
        codec(head),
    ]
}

/// The checksum of the batch with a head, and whether it is right.
fn sum(head: &Head, is_valid: bool) -> [Field; 2]
    ensures { result ≡ sum_fields head.now is_valid }
{
    [
        field(Name::Crc, Value::Unsigned(head.crc as u64)),
        flag(Name::IsValid, is_valid),
    ]
}

/// The line of the batch with a head.
fn line(alloc: Global, position: u64, head: &Head, is_valid: bool) -> Result<Line, AllocError>
    ensures { IfOk result (λ line. line.items ≡ batch_fields position head.now is_valid) }
{
    let mut line = Vec::from_slice(alloc, &front(head))?;
    line.extend_from_slice(&back(position, head))?;
    line.extend_from_slice(&sum(head, is_valid))?;
    Ok(line)
}

/// Returns the line of a batch whose checksum is right. Fails only if memory runs out.
pub fn batch_line(alloc: Global, one: &Shown) -> Result<Line, AllocError>
    ensures { IfOk result (λ line. line.items ≡ shown_fields one.now) }
{
    line(alloc, one.position, &one.head, true)
}

/// Returns the line of the batch at which a dump ended, if the file has all of its bytes. Fails only if memory runs
/// out.
pub fn broken_line(alloc: Global, broken: &Broken) -> Result<Option<Line>, AllocError>
    ensures { IfOk result (λ line. option_map (λ fields. fields.items) line ≡ broken_fields broken.now) }
{
    let is_valid = !matches!(broken.why, BatchRefusal::BadCrc { .. });
    match &broken.head {
        Some(head) => Ok(Some(line(alloc, broken.position, head, is_valid)?)),
        None => Ok(None),
    }
}
