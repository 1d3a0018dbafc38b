//! Merging the replies of a phase's shares: an answer to each line, in the trace's order.
//!
//! Kept true: of each share, as many replies are taken as it had lines so far. Takes memory as the
//! sink does, and for a number for each share; nothing waits.
ghost use Rattle.std.specs.Prelude.{◌≡◌, ◌<◌, List, OnOk, Some, vec_len};
ghost use Rattle.ms_base.specs.declared.step.Step.{Step as Asked};
ghost use Rattle.ms_base.specs.Request.{loader_of};
ghost use Rattle.ms_trace.specs.Steps.{step_of};
ghost use Rattle.ms_answers.specs.declared.replies.Answer.{Answer};
ghost use Rattle.ms_run.specs.Replay.{AreSaid};
ghost use Rattle.ms_base.specs.Run.Own.{Said};
ghost use Rattle.ms_run.specs.Sink.{Puts};
ghost use Rattle.ms_run.specs.Turn.{shares_in, position_in};
ghost use Rattle.ms_run.specs.Shares.{AreAnswered, AreMerged, AreSteps};

use crate::share::Share;
use crate::turn::{Turn, loader_named};
use ms_answers::{Answer, AnswerSink};
use ms_trace::{Command, Line};
use std::alloc::{AllocError, Global};

/// Puts an answer to each line into a sink, with the reply in its share.
pub fn merge<S: AnswerSink>(
    alloc: Global,
    turn: &Turn,
    lines: &[Line],
    shares: &Vec<Share>,
    sink: &mut S,
) -> Result<(), AllocError>
    requires count { vec_len shares.now ≡ shares_in turn.now }
    requires answered { AreAnswered (position_in turn.now) shares.now.items lines.now }
    requires steps { AreSteps lines.now }
    ensures { OnOk result (Puts S.took (λ answers. (said : List Said) × AreSaid lines.now answers said
        × AreMerged (position_in turn.now) shares.now.items lines.now said) sink.old sink.new) }
{
    let mut taken = vec![in alloc; 0; shares.len()]?;
    for line in lines {
        let position = position_of(turn, line);
        let next = taken[position];
        let reply = shares[position].replies[next];
        taken[position] = next + 1;
        sink.put(Answer {
            line: line.number(),
            reply,
            report: None,
        })?;
    }
    Ok(())
}

/// Returns which share has a line's reply; a line that asks no step goes where purges go.
fn position_of(turn: &Turn, line: &Line) -> usize
    ensures position { (step : Asked) → step_of line.now.command ≡ Some step
        → result ≡ position_in turn.now (loader_of step) }
    ensures within { result < shares_in turn.now }
{
    match line.command() {
        Command::Step(step) => turn.position(loader_named(&step)),
        Command::Sync | Command::Report => turn.position(None),
    }
}
