//! The options of a script, and the configuration that they and the defaults give.

ghost use Rattle.std.specs.Prelude.{◌≡◌};
ghost use Rattle.script_lang.specs.Script.{nothing_told, is_given, option_place, options_with, segment_bytes_of};
ghost use Rattle.script_lang.specs.Script.{local_or_whole, keep_of, local_keep_of, config_of};

use crate::refusal::Why;
use plain_log::Config;
use tier_base::{Keep, Settings};

/// An option line.
#[derive(Clone, Copy)]
pub enum OptionLine {
    Brokers(u16),
    Partitions(u16),
    SegmentBytes(u32),
    IndexIntervalBytes(u32),
    RetentionMs(i64),
    RetentionBytes(i64),
    LocalRetentionMs(i64),
    LocalRetentionBytes(i64),
}

/// The options that were given so far.
#[derive(Clone, Copy)]
pub struct Options {
    pub brokers: Option<u16>,
    pub partitions: Option<u16>,
    pub segment_bytes: Option<u32>,
    pub index_interval_bytes: Option<u32>,
    pub retention_ms: Option<i64>,
    pub retention_bytes: Option<i64>,
    pub local_retention_ms: Option<i64>,
    pub local_retention_bytes: Option<i64>,
}

/// Returns the bound of the local log: its own, or that of the whole log if its own is -2.
fn local_or_whole(local: i64, whole: i64) -> i64
    ensures { result ≡ local_or_whole local whole }
{
    if local == -2 { whole } else { local }
}

impl Options {
    /// Returns no options.
    pub fn new() -> Options
        ensures { result ≡ nothing_told.options }
    {
        Options {
            brokers: None,
            partitions: None,
            segment_bytes: None,
            index_interval_bytes: None,
            retention_ms: None,
            retention_bytes: None,
            local_retention_ms: None,
            local_retention_bytes: None,
        }
    }

    /// Returns whether an option was given before.
    fn is_given(&self, option: OptionLine) -> bool
        ensures { result ≡ is_given self.now option }
    {
        match option {
            OptionLine::Brokers(_) => self.brokers.is_some(),
            OptionLine::Partitions(_) => self.partitions.is_some(),
            OptionLine::SegmentBytes(_) => self.segment_bytes.is_some(),
            OptionLine::IndexIntervalBytes(_) => self.index_interval_bytes.is_some(),
            OptionLine::RetentionMs(_) => self.retention_ms.is_some(),
            OptionLine::RetentionBytes(_) => self.retention_bytes.is_some(),
            OptionLine::LocalRetentionMs(_) => self.local_retention_ms.is_some(),
            OptionLine::LocalRetentionBytes(_) => self.local_retention_bytes.is_some(),
        }
    }

    /// Fails if an option is given twice, or after a line of the schedule.
    pub fn allow(&self, begun: bool, option: OptionLine) -> Result<(), Why>
        ensures { result ≡ option_place begun (is_given self.now option) }
    {
        if begun {
            return Err(Why::TooLate);
        }
        if self.is_given(option) {
            return Err(Why::Twice);
        }
        Ok(())
    }

    /// Sets an option.
    pub fn give(&mut self, option: OptionLine)
        ensures { self.new ≡ options_with self.old option }
    {
        match option {
            OptionLine::Brokers(n) => self.brokers = Some(n),
            OptionLine::Partitions(n) => self.partitions = Some(n),
            OptionLine::SegmentBytes(n) => self.segment_bytes = Some(n),
            OptionLine::IndexIntervalBytes(n) => self.index_interval_bytes = Some(n),
            OptionLine::RetentionMs(n) => self.retention_ms = Some(n),
            OptionLine::RetentionBytes(n) => self.retention_bytes = Some(n),
            OptionLine::LocalRetentionMs(n) => self.local_retention_ms = Some(n),
            OptionLine::LocalRetentionBytes(n) => self.local_retention_bytes = Some(n),
        }
    }

    /// Returns the size in bytes at which a segment is closed.
    pub fn segment_bytes(&self) -> u32
        ensures { result ≡ segment_bytes_of self.now }
    {
        self.segment_bytes.unwrap_or(1_048_576)
    }

    fn keep(&self) -> Keep
        ensures { result ≡ keep_of self.now }
    {
        Keep {
            ms: self.retention_ms.unwrap_or(604_800_000),
            bytes: self.retention_bytes.unwrap_or(-1),
        }
    }

    fn local_keep(&self) -> Keep
        ensures { result ≡ local_keep_of self.now }
    {
        let whole = self.keep();
        Keep {
            ms: local_or_whole(self.local_retention_ms.unwrap_or(-2), whole.ms),
            bytes: local_or_whole(self.local_retention_bytes.unwrap_or(-2), whole.bytes),
        }
    }

    /// Returns the configuration. Options that were not given have their defaults.
    pub fn config(&self) -> Config
        ensures { result ≡ config_of self.now }
    {
        Config {
            brokers: self.brokers.unwrap_or(1),
            settings: Settings {
                segment_bytes: self.segment_bytes(),
                index_interval: self.index_interval_bytes.unwrap_or(4096),
            },
            keep: self.keep(),
            local_keep: self.local_keep(),
        }
    }
}
