//! Reading a `fault` line.

ghost use Rattle.std.specs.Prelude.{◌≡◌, IfOk};
ghost use Rattle.script_lang.specs.Reading.{with_rest};
ghost use Rattle.script_lang.specs.Forms.{device_behind, device_first, has_call, call_for, call_first, side_named};
ghost use Rattle.script_lang.specs.Forms.{side_in, fault_in};
ghost use Rattle.script_lang.specs.Fit.{IsFormInRange};

use crate::fault::{Fault, FaultCall, FaultDevice};
use crate::form::Form;
use crate::names::{DeviceName, find_call, find_device};
use crate::options::Options;
use crate::refusal::Why;
use crate::words::{Words, is};
use tier_base::{BrokerId, PartitionId};

/// Reads a device.
#[tactic(auto, unfolding(crate::specs::Forms::device_first))]
fn device(brokers: u16, words: &mut Words) -> Result<FaultDevice, Why>
    ensures { with_rest result words.new ≡ device_first brokers words.old }
{
    match find_device(words.first(Why::Word)?) {
        DeviceName::Store => Ok(FaultDevice::Store),
        DeviceName::Meta => Ok(FaultDevice::Meta),
        DeviceName::Disk => {
            let broker = words.number(0, brokers.saturating_sub(1) as u64)?;
            Ok(FaultDevice::Disk(BrokerId(broker as u16)))
        }
        DeviceName::Unknown => Err(Why::Word),
    }
}

/// Returns whether a device has this call.
fn has_call(device: FaultDevice, call: FaultCall) -> bool
    ensures { result ≡ has_call device call }
{
    match device {
        FaultDevice::Store => matches!(call, FaultCall::Put | FaultCall::Get | FaultCall::Delete),
        FaultDevice::Meta => matches!(call, FaultCall::Append | FaultCall::Read),
        FaultDevice::Disk(_) => !matches!(
            call,
            FaultCall::Put | FaultCall::Get | FaultCall::Delete
        ),
    }
}

/// Reads a call that a device has.
#[tactic(auto, unfolding(crate::specs::Forms::call_first))]
fn call(device: FaultDevice, words: &mut Words) -> Result<FaultCall, Why>
    ensures { with_rest result words.new ≡ call_first device words.old }
{
    let Some(call) = find_call(words.first(Why::Word)?) else {
        return Err(Why::Word);
    };
    if !has_call(device, call) {
        return Err(Why::Word);
    }
    Ok(call)
}

/// Reads `before` or `after`: whether the call takes effect before it fails.
fn side(word: &[u8]) -> Result<bool, Why>
    ensures { result ≡ side_named word.now }
{
    if is(word, "after") {
        return Ok(true);
    }
    if is(word, "before") {
        return Ok(false);
    }
    Err(Why::Word)
}

/// Reads the last word of a fault line.
#[tactic(auto, unfolding(crate::specs::Forms::side_in))]
fn last_side(words: Words) -> Result<bool, Why>
    ensures { result ≡ side_in words.entry }
{
    let mut words = words;
    let after = side(words.first(Why::Word)?)?;
    words.end(Why::Word)?;
    Ok(after)
}

/// Reads the words after `fault`.
#[tactic(auto, unfolding(crate::specs::Forms::fault_in))]
pub fn fault(options: Options, words: Words) -> Result<Form, Why>
    ensures value { result ≡ fault_in options words.entry }
    ensures range { IfOk result (IsFormInRange options) }
{
    let mut words = words;
    let partitions = options.partitions.unwrap_or(1);
    let partition = words.number(0, partitions.saturating_sub(1) as u64)? as u16;
    let device = device(options.brokers.unwrap_or(1), &mut words)?;
    let call = call(device, &mut words)?;
    let number = words.number(1, (1 << 32) - 1)? as u32;
    let after = last_side(words)?;
    Ok(Form::Faulty {
        partition: PartitionId(partition),
        fault: Fault {
            device,
            call,
            number,
            after,
        },
    })
}
