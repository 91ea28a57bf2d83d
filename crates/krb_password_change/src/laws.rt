//! Laws of the change of a password, for all values.

ghost use Rattle.std.specs.Prelude.{List, take, Result};
ghost use Rattle.krb_context.specs.declared.context.ContextChange.{ContextChange};
ghost use Rattle.sspi_core.specs.declared.draw.Draw.{Draw};
ghost use Rattle.sspi_core.specs.declared.error.Error.{Error};
ghost use Rattle.sspi_generator.specs.Runs.{Resolves};
ghost use Rattle.krb_password_change.specs.declared.change_run.ChangePasswordRun.{ChangePasswordRun};
ghost use Rattle.krb_password_change.specs.ChangeRuns.{IsNew, StartsAt, ResumesAt};

use sspi_generator::NetworkClient;

/// A run from a new change of a password asks three times at most, whoever sends: its outcome is the one over the first four of its
/// draws.
pub fn changes_ask_three_times_at_most<C: NetworkClient>()
    ensures { (run run' : ChangePasswordRun)
        (client client' : C) (draws : List Draw) (out : Result ContextChange Error) → IsNew run
        → Resolves StartsAt ResumesAt C.sends run client draws out run' client'
        → Resolves StartsAt ResumesAt C.sends run client (take 4 draws) out run' client' }
{}
