//! A run, and its report.

ghost use Rattle.std.specs.Prelude.{◌≡◌, ◌≤◌, IfOk};
ghost use Rattle.dl_model.specs.Formed.{IsFormed};
ghost use Rattle.dl_model.specs.Worlds.{KeepsWorlds};
ghost use Rattle.dl_run.specs.Ends.{endings_of};
ghost use Rattle.dl_run.specs.Reports.{IsReported, IsWritten};

use crate::ends::{all_ended, endings};
use dl_file::File;
use dl_model::{End, Order};
use dl_nodes::{Run, run_serial};
use dl_report::report;
use std::alloc::{AllocError, Global};

/// The report of a run.
#[derive(Drop)]
pub struct Reported {
    /// The report's text.
    pub text: Vec<u8>,
    /// Whether each program returned.
    pub ended: bool,
}

/// Runs the programs of a file by the serial schedule, from the first state on, each within the budget, and writes the report
/// of that run. The one refusal is want of memory.
///
/// The conditions are that the declarations are formed and keep to their worlds, as those of each accepted file do, and a
/// budget of at most 100,000.
pub fn run_file(
    alloc: Global,
    file: &File,
    budget: u32,
    order: Order,
) -> Result<Reported, AllocError>
    requires formed { IsFormed file.now.decls }
    requires worlds { KeepsWorlds file.now.decls }
    requires budget { budget ≤ 100000 }
    ensures { IfOk result (λ reported. IsReported file.now budget order reported.text.items reported.ended) }
{
    let run = run_serial(alloc, &file.decls, budget, order)?;
    let answer = report_of(alloc, file, budget, order, &run);
    drop(run);
    answer
}

/// The report of a run that is over.
fn report_of(
    alloc: Global,
    file: &File,
    budget: u32,
    order: Order,
    run: &Run,
) -> Result<Reported, AllocError>
    ensures { IfOk result (λ reported. IsWritten file.now budget order run.now reported.text.items reported.ended) }
{
    let ends = endings(alloc, run.nodes.as_slice())?;
    written(alloc, file, budget, order, run, ends.as_slice())
}

/// The report of a run, with the ends of its nodes.
fn written(
    alloc: Global,
    file: &File,
    budget: u32,
    order: Order,
    run: &Run,
    ends: &[(u32, End, u32)],
) -> Result<Reported, AllocError>
    requires { ends.now ≡ endings_of run.now.nodes.items }
    ensures { IfOk result (λ reported. IsWritten file.now budget order run.now reported.text.items reported.ended) }
{
    let text = report(
        alloc,
        file.names.as_slice(),
        &file.decls,
        budget,
        order,
        run.soup.history(),
        ends,
    )?;
    Ok(Reported {
        text,
        ended: all_ended(ends),
    })
}
