//! That inputs which keep the rules are those of status 0, that runs of the same input are the
//! same, and that `lines` shows the run of `run`. Each law is a function that does nothing: its
//! contract is the law.

ghost use Rattle.std.specs.Prelude.{◌≡◌, List};
ghost use Rattle.sx_io.specs.Reading.{Answer};
ghost use Rattle.sx_sched.specs.Reading.{Assembler};
ghost use Rattle.command_promise.specs.declared.status.Status.TheVariants.{Done};
ghost use Rattle.command_promise.specs.Head.{head};
ghost use Rattle.command_head.specs.Meanings.{Meaning};
ghost use Rattle.command_world.specs.WellFormed.{IsGoodInput};
ghost use Rattle.command_world.specs.Status.{schedule_status};
ghost use Rattle.command_deploy.specs.Output.{deploy_status};
ghost use Rattle.command_run.specs.Laws.{EachGivesItsItems, LinesGiveItems, RunsAreSame};

/// A deployment that keeps the rules, the line `%%` and a schedule that does have status 0. So
/// `complete` of `RunDeployPromise` says of these that they are run to their end.
pub fn good_input_has_status_0()
    ensures { (assemble : Assembler) (meaning : Meaning) (answers : List Answer)
        → IsGoodInput assemble meaning (head answers)
        → deploy_status (schedule_status assemble) meaning answers ≡ Done }
{}

/// Two calls over the same input, in which no read and no write failed and memory sufficed, write
/// the same trace: the images too follow from the input.
pub fn runs_are_same()
    ensures { RunsAreSame }
{}

/// The items that `lines` writes, put together, are those that `run` writes of the same schedule.
pub fn lines_give_items()
    ensures { LinesGiveItems }
{}

/// The k-th line is shown with what it gave in the world after the lines before it.
pub fn each_gives_its_items()
    ensures { EachGivesItsItems }
{}
