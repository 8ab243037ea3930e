//! Prints, reads and checks certificates: texts that prove the result of a cheapest-flow problem: a flow with potentials
//! that show it cheapest, or a side of the network that shows that no flow is feasible. The check needs no solver.
#![tactic(auto)]

mod balance;
mod cert;
mod digits;
mod fault;
mod instance;
mod law;
mod limits;
mod line;
mod number;
mod print;
mod problem;
mod reader;
mod verdict;
mod version;

pub use cert::Cert;
pub use fault::{CertFault, CertRefusal};
pub use law::{
    cut_passes, limit_values, shown_passes, text_is_read_back, version_one_is_unordered,
};
pub use limits::{CERT_ARCS_MAX, CERT_NODES_MAX, VERSION_ONE_ARCS_MAX};
pub use print::{print_cut, print_flow};
pub use reader::read;
pub use verdict::{Verdict, check};
pub use version::Version;
