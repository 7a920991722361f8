//! Batches that are dumped and printed, worked by hand from the format's table.

ghost use Rattle.std.specs.Prelude.{◌≡◌};

use crate::{Ending, Show, ShowRefusal, Shown, Style, batch_line, dump, text_of};
use record_batch::BatchRefusal;
use std::alloc::{AllocError, Global};
use std::test::Fail;
use tier_base::{Items, MemorySource};

/// Keeps the batches that are shown.
#[derive(Drop)]
struct Kept {
    batches: Items<Shown>,
}

impl Show for Kept {
    ghost told = { λ k batches. k.batches ≡ batches };

    fn show(&mut self, one: &Shown, _batch: &[u8]) -> Result<(), ShowRefusal> {
        self.batches.push(*one)?;
        Ok(())
    }
}

/// A batch of one record, without a key and with the value `a`, at offset 0 in epoch 0, with timestamp 1000.
static ONE: &str =
    "0000000000000000000000390000000002ebf1884b00000000000000000000000003e800000000000003e8fffffffffffff\
    fffffffffffffff000000010e00000001026100";

/// How a dump ends.
#[derive(Clone, Copy, PartialEq, Eq)]
enum End {
    At(u64),
    NoBatch(u64, BatchRefusal),
    Refused,
}

/// How many bytes are cut off the end of a batch, how many batches are shown, and how the dump ends.
static CUTS: [(usize, usize, End); 4] = [
    (0, 1, End::At(69)),
    (1, 0, End::NoBatch(0, BatchRefusal::Short)),
    (60, 0, End::NoBatch(0, BatchRefusal::Short)),
    (69, 0, End::At(0)),
];

/// The bytes of the batch without the last `cut`.
fn bytes_of(alloc: Global, cut: usize) -> Result<Vec<u8>, AllocError> {
    let Ok(mut bytes) = hex::decode(alloc, ONE.as_bytes()) else {
        return Err(AllocError);
    };
    bytes.truncate(bytes.len().saturating_sub(cut));
    Ok(bytes)
}

/// Dumps bytes.
fn ended(alloc: Global, bytes: Vec<u8>) -> (Items<Shown>, End) {
    let mut source = MemorySource::new(bytes, Vec::new(alloc));
    let mut kept = Kept {
        batches: Items::new(alloc),
    };
    let end = match dump(alloc, &mut source, &mut kept) {
        Ok(Ending::End { position }) => End::At(position),
        Ok(Ending::NoBatch(broken)) => End::NoBatch(broken.position, broken.why),
        Err(_) => End::Refused,
    };
    let Kept { batches } = kept;
    (batches, end)
}

/// Counts what is shown of a batch that is cut.
fn counted(alloc: Global, cut: usize) -> Result<(usize, End), AllocError> {
    let bytes = bytes_of(alloc, cut)?;
    let (batches, end) = ended(alloc, bytes);
    Ok((batches.len(), end))
}

/// The lines of the batch.
fn printed(alloc: Global, style: Style) -> Result<String, AllocError> {
    let bytes = bytes_of(alloc, 0)?;
    let (batches, _) = ended(alloc, bytes);
    let mut text = String::new(alloc);
    for one in batches.as_slice() {
        let line = batch_line(alloc, one)?;
        let printed = text_of(alloc, style, line.as_slice())?;
        text.push_str(printed.as_str())?;
    }
    Ok(text)
}

/// A style, and the text of the batch in it.
static TEXTS: [(Style, &str); 3] = [
    (
        Style {
            json: false,
            human: true,
            dates: false,
        },
        "baseOffset: 0 lastOffset: 0 count: 1 baseSequence: -1 producerId: -1 producerEpoch: -1 \
        partitionLeaderEpoch: 0 isTransactional: false isControl: false position: 0 CreateTime: 1000 size: 69 \
        magic: 2 compresscodec: none crc: 3958474827 isvalid: true\n",
    ),
    (
        Style {
            json: false,
            human: false,
            dates: true,
        },
        "baseOffset: 0 lastOffset: 0 count: 1 baseSequence: -1 producerId: -1 producerEpoch: -1 \
        partitionLeaderEpoch: 0 isTransactional: false isControl: false position: 0 CreateTime: \
        1970-01-01T00:00:01Z size: 69 magic: 2 compresscodec: none crc: 3958474827 isvalid: true\n",
    ),
    (
        Style {
            json: true,
            human: false,
            dates: false,
        },
        "{\"CreateTime\":1000,\"baseOffset\":0,\"baseSequence\":-1,\"compresscodec\":\"none\",\"count\":1,\
        \"crc\":3958474827,\"isControl\":false,\"isTransactional\":false,\"isvalid\":true,\"lastOffset\":0,\
        \"magic\":2,\"partitionLeaderEpoch\":0,\"position\":0,\"producerEpoch\":-1,\"producerId\":-1,\
        \"size\":69}\n",
    ),
];

#[test]
fn a_dump_ends_at_the_first_place_without_a_batch(rt: HostRuntime) -> Result<(), Fail> {
    for (cut, count, end) in &CUTS {
        let shown = counted(rt.alloc(), *cut)?;
        assert!(rt; shown == (*count, *end), "{cut} bytes less");
    }
    Ok(())
}

#[test]
fn a_batch_is_printed(rt: HostRuntime) -> Result<(), Fail> {
    for (style, text) in &TEXTS {
        let line = printed(rt.alloc(), *style)?;
        assert!(rt; line.as_str() == *text, "{line}");
    }
    Ok(())
}
