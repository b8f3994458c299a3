//! The totals of a run in threads, as lines.

ghost use Rattle.std.specs.Prelude.{◌≡◌, ◌++◌, IfOk, OnOk, string_bytes};
ghost use Rattle.dsa_cli.specs.Threads.{total_line, totals_text};

use dsa_shared::Totals;
use std::alloc::{AllocError, Global};
use std::fmt::Write;

fn add_total(text: &mut String, name: &str, total: u64) -> Result<(), AllocError>
    ensures { OnOk result
        (string_bytes text.new ≡ string_bytes text.old ++ total_line name.now total) }
{
    writeln!(text, "{name} {total}")
}

/// A line for each total, and one that says that they balance.
pub fn render_totals(alloc: Global, totals: &Totals) -> Result<String, AllocError>
    ensures { IfOk result (λ text. string_bytes text ≡ totals_text totals.now) }
{
    let mut text = String::new(alloc);
    add_total(&mut text, "accepted", totals.accepted)?;
    add_total(&mut text, "fetched", totals.fetched)?;
    add_total(&mut text, "retried", totals.retried)?;
    add_total(&mut text, "done", totals.done)?;
    add_total(&mut text, "lost", totals.lost)?;
    add_total(&mut text, "held", totals.held)?;
    text.push_str("balanced\n")?;
    Ok(text)
}
