//! What the program prints of itself.

/// What `--help` prints.
const HELP: &str = "\
tiered: runs scripts on a Kafka log in a local and a remote tier

usage:
  tiered sim < SCRIPT            run a script in memory and write its trace
  tiered sim --threads < SCRIPT  the same with a thread for each actor; the system's schedule replaces the script's
  tiered run DIR < SCRIPT        run a script over the directory DIR: empty, or what earlier runs left
  tiered gen N                   run the load of number N (0 to 4294967295) and write a summary
  tiered audit DIR               check the remote tiers in DIR and report on each partition
  tiered sweep DIR               remove what unfinished copies and deletions left in the remote tiers in DIR
  tiered --help
  tiered --version

exit status:
  0  success
  2  wrong arguments
  3  a line of the script is invalid
  4  reading standard input failed
  5  writing standard output failed
  6  out of memory
  7  the script has more than 16777216 bytes
  8  a call in the directory failed
  9  the directory has something that isn't a run's, or a partition without its registry
  10 a remote tier isn't sound
  11 a partition was kept for another count of brokers
  12 a partition's registry is damaged

documents:
  README.md       what the program does, and what is proved of it
  docs/CLI.md     the modes, the statuses and the messages
  docs/SCRIPT.md  every line of a script and every answer
";

/// What `--version` prints.
const VERSION: &str = "tiered 0.3.0\n";

/// What the words of the program itself print, if they are such.
pub fn printed(words: &[String]) -> Option<&'static str> {
    match words {
        [word] => match word.as_str() {
            "--help" => Some(HELP),
            "--version" => Some(VERSION),
            _ => None,
        },
        _ => None,
    }
}
