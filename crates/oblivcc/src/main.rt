//! The program: `oblivc_main` on the words, files and streams of the process.
#![tactic(auto)]

use oblivc_main::serve_process;
use oc_outside::{HostArguments, HostSink, HostVault, SureDialer};
use oc_values::Items;
use std::process::ExitCode;

fn main(rt: HostRuntime) -> ExitCode {
    let alloc = rt.alloc();
    let words = HostArguments::new(&rt);
    let mut files = HostVault::new(rt);
    let mut dialer = SureDialer::new(alloc, Items::new(alloc));
    let mut out = HostSink::new(rt.stdout());
    let mut err = HostSink::new(rt.stderr());
    ExitCode::from(serve_process(alloc, &words, &mut files, &mut dialer, &mut out, &mut err))
}
