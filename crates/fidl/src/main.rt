//! The program `fidl` (docs/program.md).
#![tactic(auto)]

use fidl_tool::{Ran, run_on_host};

fn main(rt: HostRuntime) -> Ran {
    run_on_host(&rt)
}
