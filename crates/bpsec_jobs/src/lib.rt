//! The jobs of the commands: each a function from what was fetched and read to an answer, in a module of its own, with its
//! definition in specs/. A further crate of jobs is bpsec_reports; bpsec_command lists the commands.
#![tactic(auto)]

mod build;
mod check;
mod explain;
mod fragment;
mod job;
mod node;
mod node_report;
mod reassembly;
mod refusals;
mod secure;
mod texts;
mod upgrade;

pub use build::Build;
pub use check::Check;
pub use explain::Explain;
pub use fragment::Fragment;
pub use job::{BundleJob, KeyedJob, RingJob, TextJob};
pub use node::{Node, begin_refused, outcome};
pub use node_report::report_of;
pub use reassembly::reassemble;
pub use refusals::bundle_refused;
pub use secure::Secure;
pub use texts::{NamedText, text_refused};
pub use upgrade::Upgrade;
