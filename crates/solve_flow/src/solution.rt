ghost use Rattle.std.specs.Prelude.{◌≡◌, All, IfOk, List, ℕ};
ghost use Rattle.flow_model.specs.Flow.{IsCheapest, IsFeasible};
ghost use Rattle.flow_model.specs.Potentials.{IsSmall, ShowsCheapest};
ghost use Rattle.flow_model.specs.Side.{Cuts};
ghost use Rattle.flow_model.specs.Solved.{IfCut, IfFlow};
ghost use Rattle.certificate.specs.Certificate.{IsCertificate};
ghost use Rattle.certificate.specs.Text.{certificate_text};
ghost use Rattle.solve_flow.specs.Solution.{IsProblemOf, solution_certificate};

use crate::fault::Fault;
use certificate::{print_cut, print_flow, read};
use flow_model::{Instance, Solve, Solved};
use std::alloc::Global;
use std::io::Eprint;
use std::time::{Clock, Instant};

/// The instance of a certificate's text.
pub(crate) fn read_instance(alloc: Global, text: &[u8]) -> Result<Instance, Fault>
    ensures { IfOk result (IsProblemOf text.now) }
{
    let certificate = read(alloc, text)?;
    match certificate.instance(alloc)? {
        Some(instance) => Ok(instance),
        None => Err(Fault::Unsorted),
    }
}

/// Solves an instance, and writes the microseconds that this takes.
pub(crate) fn solve_timed<S: Solve>(
    rt: &(impl Clock + Eprint),
    alloc: Global,
    solver: &S,
    instance: &Instance,
) -> Result<Solved, Fault>
    ensures shown { IfOk result (λ s. IfFlow s (λ flow p. ShowsCheapest instance.now flow p)) }
    ensures small { IfOk result (λ s. IfFlow s (λ flow p. All IsSmall p)) }
    ensures cuts { IfOk result (λ s. IfCut s (λ side. Cuts instance.now side)) }
{
    let start = Instant::now(rt).map_err(|_| Fault::Clock)?;
    let solved = solver.solve(alloc, instance)?;
    let end = Instant::now(rt).map_err(|_| Fault::Clock)?;
    let micros = end.duration_since(start).as_micros();
    eprintln!(rt; "open and solve {micros} us").map_err(|_| Fault::Output)?;
    Ok(solved)
}

/// The certificate of a solution.
#[tactic(auto, using(crate::proofs::Units::units_small))]
pub(crate) fn print_solution(
    alloc: Global,
    instance: &Instance,
    solved: &Solved,
) -> Result<Vec<u8>, Fault>
    requires shown { IfFlow solved.now (λ flow p. ShowsCheapest instance.now flow p) }
    requires small { IfFlow solved.now (λ flow p. All IsSmall p) }
    requires cuts { IfCut solved.now (λ side. Cuts instance.now side) }
    ensures { IfOk result (λ text. text.items ≡ certificate_text (solution_certificate instance.now solved.now)) }
{
    let _nodes = instance.nodes();
    let text = match solved {
        Solved::Flow { flow, potentials } => {
            print_flow(alloc, instance, flow, potentials.as_slice())?
        }
        Solved::Cut { side } => print_cut(alloc, instance, side.as_slice())?,
    };
    Ok(text)
}
