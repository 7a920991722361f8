//! The call that the program makes: for the words `sim`, `sim --threads`, `run`, `gen`, `audit` and `sweep`.
//!
//! `tiered` has the program's guarantees as its clauses. A script is read (`script_lang`), each of its partitions is
//! run in a world of its own, over devices in memory (`run_memory`) or over those of an environment (`run`), and the
//! trace of the journals is written (`sim`). The script of a load number is run in the same way and summed up (`load`).
//! The remote tiers of an environment are audited and swept (`rounds`). The arguments, the statuses and the explanation
//! of a refused line have modules of their own.
#![tactic(auto)]

mod by_threads;
mod explaining;
mod help;
mod load;
mod rounds;
mod run;
mod sim;
mod status;
mod top;
mod words;

pub use explaining::{explained, script_source};
pub use help::printed;
pub use run_threaded::{Gate, OpenGate};
pub use script_lang::Why;
pub use status::Status;
pub use top::{tiered, tiered_in_order};
pub use words::{Form, folder, form_of};
