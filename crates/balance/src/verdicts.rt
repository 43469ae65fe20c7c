// Request 01, said of the functions that run. specs/VerdictClaims states both claims of the calls of `judge`, `expand` and `run`,
// proofs/VerdictCalls proves them, and the functions here, which call these entry points, promise them.
ghost use Rattle.std.specs.Prelude.{◌≡◌, [], ◌∷◌, ℕ};
ghost use Rattle.model.specs.Layouts.{layout_of};
ghost use Rattle.model.specs.Answers.{report, run_report, counted, outcome};
ghost use Rattle.model.specs.Expansion.{expand_outcome};
ghost use Rattle.model.specs.Run.{run_outcome};
ghost use Rattle.sets.specs.Walk.{told, verdict_report};
ghost use Rattle.sets.specs.Claims.{Clear, Images};
ghost use Rattle.balance.specs.VerdictClaims.{DrawnTwins, AsJudged, verdict_on};

use model::{Ending, LINE_WIDTH, Refusal};
use sets::Verdict;

#[derive(Clone, Copy)]
pub struct JudgedRuns {
    pub verdict: Result<Verdict, Refusal>,
    pub one: Result<Ending, Refusal>,
    pub other: Result<Ending, Refusal>,
}

// Judges a listing and runs it from two states. Where the verdict is balanced or spent and the states are drawn from the sets, both runs are
// answered what the verdict says, and the rows written are equal.
pub fn judged_runs(
    listing: &[u16],
    sets: &[u8],
    budget: u16,
    one: &mut [u8],
    other: &mut [u8],
    trace: &mut [u16],
    twin: &mut [u16],
) -> JudgedRuns
    ensures verdict_value { told result.verdict ≡ verdict_report listing.now sets.now budget }
    ensures trace_after { outcome (run_report result.one) (one.new ∷ trace.new ∷ []) ≡ run_outcome listing.now 0 budget one.old trace.old }
    ensures twin_after { outcome (run_report result.other) (other.new ∷ twin.new ∷ []) ≡ run_outcome listing.now 0 budget other.old twin.old }
    ensures as_judged { DrawnTwins sets.now budget one.old other.old trace.old twin.old → Clear (told result.verdict) → AsJudged (told result.verdict) trace.old twin.old (outcome (run_report result.one) (one.new ∷ trace.new ∷ [])) (outcome (run_report result.other) (other.new ∷ twin.new ∷ [])) }
{
    JudgedRuns {
        verdict: walk::judge(listing, sets, budget),
        one: machine::run(listing, 0, budget, one, trace),
        other: machine::run(listing, 0, budget, other, twin),
    }
}

#[derive(Clone, Copy)]
pub struct JudgedExpansion {
    pub expanded: Result<u32, Refusal>,
    pub verdict: Result<Verdict, Refusal>,
}

// Expands a program and judges what was written. Where `expand` refuses nothing, from sets that hold only images in that layout with one
// value in each public place, the verdict is balanced or spent.
pub fn judged_expansion(
    position: u8,
    spacing: u8,
    program: &[u16],
    out: &mut [u16],
    sets: &[u8],
    budget: u16,
) -> JudgedExpansion
    ensures out_after { outcome (report result.expanded) (out.new ∷ []) ≡ expand_outcome position spacing program.now out.old }
    ensures verdict_value { told result.verdict ≡ verdict_on (report result.expanded) out.new sets.now budget }
    ensures never_alarms { (n : ℕ) → report result.expanded ≡ counted n → Images (layout_of position spacing) sets.now → Clear (told result.verdict) }
{
    let expanded = expander::expand(position, spacing, program, out);
    match expanded {
        Ok(count) => {
            let end = LINE_WIDTH * (count as usize);
            let verdict = walk::judge(&out[..end], sets, budget);
            JudgedExpansion { expanded, verdict }
        }
        Err(refusal) => JudgedExpansion {
            expanded,
            verdict: Err(refusal),
        },
    }
}
