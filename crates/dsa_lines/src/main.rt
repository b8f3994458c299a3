//! Reads a scenario document from standard input, and writes its lines to standard output: what
//! `dsa_run` does without words, over a store of vectors in place of linked cells. It needs neither
//! the words nor the other texts, so that the toolchain's quick way begins sooner.
#![tactic(auto)]

ghost use Rattle.std.specs.Prelude.{◌≡◌, None};
ghost use Rattle.dsa_scenario.specs.Scenario.{IsRenderingOf};

use dsa_scenario::{
    PlainRun, Render, Rendering, ScenarioFault, WatchedWriter, render_input, render_over,
};
use dsa_store::PlainStore;
use std::alloc::Global;
use std::process::ExitCode;

// The lines of a document's run over a store of vectors, as a way to make a text of it.
#[derive(Clone, Copy, Drop)]
struct OverVectors;

impl Render for OverVectors {
    ghost is_rendering = { λ plain bytes fault text. (fault ≡ None) × IsRenderingOf bytes text };

    fn render(&self, alloc: Global, bytes: &[u8]) -> Result<Rendering, ScenarioFault> {
        render_over::<PlainStore, PlainRun>(alloc, &PlainRun, bytes)
    }
}

fn main(rt: HostRuntime) -> ExitCode {
    let alloc: Global = rt.alloc();
    let (mut reader, mut stdout, mut err) = (rt.stdin(), rt.stdout(), rt.stderr());
    let mut out = WatchedWriter::new(&mut stdout);
    match render_input(alloc, &OverVectors, &mut reader, &mut out) {
        Ok(_) => ExitCode::SUCCESS,
        // A program whose reader went away has nobody to tell.
        Err(_) if out.is_closed() => ExitCode::FAILURE,
        Err(fault) => {
            let _ = err.print(format_args!("dsa_run: {fault}\n"));
            ExitCode::FAILURE
        }
    }
}
